// The copy, made while the file is read in pieces. A field is held from its tag on until it is complete, so that
// what is kept of it are its own bytes, and nothing is kept of one that the end cuts short.
ghost use Rattle.std.specs.Prelude.{◌≡◌};
ghost use Rattle.recording.specs.Pieces.{next_of, kept_of};
ghost use Rattle.mending.specs.Calls.{held_of, kept_in};

use recording::field::Field;
use recording::pieces::{Place, Step};

// Goes on with the rest of a piece, as far as the end of one field or of the piece. After a finding the whole
// field is the front of what is held: 65,538 bytes are enough for the longest.
pub fn next(place: Place, buffer: &mut [u8; 1472], hold: &mut [u8; 65538], piece: &[u8]) -> Step
    ensures value { result ≡ next_of place buffer.old piece.now }
    ensures buffer_after { buffer.new ≡ kept_of place buffer.old piece.now }
    ensures hold_after { hold.new ≡ held_of place hold.old piece.now }
{
    let at = recording::pieces::inside(place);
    let step = recording::pieces::next(place, buffer, piece);
    let used = text::part::front(piece, step.used);
    codec::number::put_bytes(hold, at, used);
    step
}

// What the copy has of a field that is complete: all of its bytes as they are held, or none where it is bad. No Option, since the
// copy is these parts one after the other.
#[tactic(auto, unfolding(crate::specs::Calls::kept_in))]
pub fn kept(field: Field, hold: &[u8]) -> &[u8]
    ensures { result.now ≡ kept_in field hold.now }
{
    match field.found {
        Ok(_) => text::part::front(hold, 3 + field.length as usize),
        Err(_) => &hold[..0],
    }
}
