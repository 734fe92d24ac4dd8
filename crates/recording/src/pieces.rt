// A recording handed over in pieces cut anywhere. What is kept from call to call is a place, and in a lent
// buffer the body of the field under way, where its verdict needs it.
ghost use Rattle.std.specs.Prelude.{◌≡◌};
ghost use Rattle.codec.specs.Number.{Below};
ghost use Rattle.recording.specs.Pieces.{fresh, length_of, size_of, sound_of, head_byte, headed_of, used_of, part_of, buffer_of, found_of, counted, done_of, ends_of, next_of, kept_of, finish_of};

use crate::error::RecordError;
use crate::field::{Field, Found};

// Where reading stands: how many bytes of the field under way were read, tag and length among them; those
// three bytes, as far as they were read; and how many fields were skipped so far. A caller may hand back any place: so its
// bytes stand side by side, `sound` mends it, and neither an enum of states nor an invariant asks more of it.
#[derive(Clone, Copy)]
pub struct Place {
    pub past: usize,
    pub tag: u8,
    pub high: u8,
    pub low: u8,
    pub skipped: u32,
}

// How much of the piece was used, and the field that is complete now, if the piece did not end before.
#[derive(Clone, Copy)]
pub struct Step {
    pub place: Place,
    pub used: usize,
    pub seen: Option<Field>,
}

impl Place {
    fn between(skipped: u32) -> Place
        ensures { result ≡ fresh skipped }
    {
        Place {
            past: 0,
            tag: 0,
            high: 0,
            low: 0,
            skipped,
        }
    }

    fn length(self) -> u16
        ensures { result ≡ length_of self }
    {
        u16::from_be_bytes([self.high, self.low])
    }

    fn size(self) -> usize
        ensures { Below (size_of self) 65539 result }
    {
        3 + usize::from(self.length())
    }

    // Reading never stops at the end of a field. A place that says so counts as one between two fields.
    #[tactic(auto, using(crate::proofs::PlaceLaws::sound_same, crate::proofs::PlaceLaws::sound_fresh))]
    fn sound(self) -> Place
        ensures { result ≡ sound_of self }
    {
        if self.past < self.size() {
            self
        } else {
            Place::between(self.skipped)
        }
    }

    // With the bytes of tag and length that a piece brings.
    #[tactic(auto, unfolding(crate::specs::Pieces::headed_of))]
    fn headed(self, piece: &[u8]) -> Place
        ensures { result ≡ headed_of self piece.now }
    {
        Place {
            tag: head_byte(0, self.past, self.tag, piece),
            high: head_byte(1, self.past, self.high, piece),
            low: head_byte(2, self.past, self.low, piece),
            ..self
        }
    }

    // How many of n bytes belong to the field under way.
    #[tactic(auto, unfolding(crate::specs::Pieces::used_of))]
    fn used(self, n: usize) -> usize
        ensures { result ≡ used_of self n }
    {
        n.min(self.size().saturating_sub(self.past))
    }

    // The bytes of the piece that belong to the body of the field under way.
    #[tactic(auto, using(crate::proofs::PlaceLaws::used_most))]
    fn part<'a>(self, piece: &'a [u8]) -> &'a [u8]
        ensures { result.now ≡ part_of self piece.now }
    {
        let n = self.used(piece.len());
        let head = 3usize.saturating_sub(self.past);
        &piece[head.min(n)..n]
    }

    // They go after those that were kept before.
    #[tactic(auto, using(crate::proofs::PlaceLaws::not_kept))]
    fn keep(self, buffer: &mut [u8], piece: &[u8])
        ensures { buffer.new ≡ buffer_of self buffer.old piece.now }
    {
        if crate::field::kept(self.tag, self.length()) {
            codec::number::put_bytes(buffer, self.past.saturating_sub(3), self.part(piece));
        }
    }

    #[tactic(auto, unfolding(crate::specs::Pieces::found_of))]
    fn found(self, buffer: &[u8]) -> Result<Found, RecordError>
        ensures { result ≡ found_of self buffer.now }
    {
        let length = self.length();
        let body = codec::field::part_at(buffer, 0, usize::from(length));
        crate::field::judge(self.tag, length, body)
    }

    // The field is complete with n bytes more.
    fn done(self, n: usize, found: Result<Found, RecordError>) -> Step
        ensures { result ≡ done_of self n found }
    {
        Step {
            place: Place::between(count(found, self.skipped)),
            used: n,
            seen: Some(Field {
                tag: self.tag,
                length: self.length(),
                found,
            }),
        }
    }

    // N bytes further, to the end of the field or short of it.
    #[tactic(auto, using(crate::proofs::PlaceLaws::ends_more, crate::proofs::PlaceLaws::ends_done))]
    fn ends(self, n: usize, buffer: &[u8]) -> Step
        ensures { result ≡ ends_of self n buffer.now }
    {
        if self.size().saturating_sub(self.past) <= n {
            return self.done(n, self.found(buffer));
        }
        Step {
            place: Place {
                past: self.past + n,
                ..self
            },
            used: n,
            seen: None,
        }
    }
}

// Byte k of tag and length: as it was read before, or from the piece.
#[tactic(auto, using(crate::proofs::PlaceLaws::head_old, crate::proofs::PlaceLaws::head_got), unfolding(crate::specs::Pieces::head_byte))]
fn head_byte(k: usize, past: usize, old: u8, piece: &[u8]) -> u8
    ensures { result ≡ head_byte k past old piece.now }
{
    if k < past {
        return old;
    }
    piece.get(k - past).copied().unwrap_or(old)
}

// The count of skipped fields stops at 4,294,967,295.
fn count(found: Result<Found, RecordError>, skipped: u32) -> u32
    ensures { result ≡ counted found skipped }
{
    match found {
        Ok(Found::Skipped) => skipped.saturating_add(1),
        _ => skipped,
    }
}

// The start of a file.
pub fn begin() -> Place
    ensures { result ≡ fresh 0 }
{
    Place::between(0)
}

// Goes on with the rest of a piece, as far as the end of one field or of the piece. After a finding the body
// that was kept is the front of the buffer.
#[tactic(auto, unfolding(crate::specs::Pieces::next_of, crate::specs::Pieces::kept_of, crate::specs::Pieces::place_of))]
pub fn next(place: Place, buffer: &mut [u8; 1472], piece: &[u8]) -> Step
    ensures value { result ≡ next_of place buffer.old piece.now }
    ensures buffer_after { buffer.new ≡ kept_of place buffer.old piece.now }
{
    let p = place.sound().headed(piece);
    p.keep(buffer, piece);
    p.ends(p.used(piece.len()), buffer)
}

// How many bytes of the field under way were read, tag and length among them: none between two fields.
pub fn inside(place: Place) -> usize
    ensures { result ≡ (sound_of place).past }
{
    place.sound().past
}

// At the end of the input: it must not be inside a field.
#[tactic(auto, using(crate::proofs::PlaceLaws::finish_none, crate::proofs::PlaceLaws::finish_inside))]
pub fn finish(place: Place) -> Result<(), RecordError>
    ensures { result ≡ finish_of place }
{
    if inside(place) == 0 {
        Ok(())
    } else {
        Err(RecordError::Cut)
    }
}
