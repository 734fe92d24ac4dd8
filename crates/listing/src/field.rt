// The lines of one field of a recording. An output that is too short for a line is left as it was and the
// line left out; who lends 65,536 bytes past `at` loses none (proofs/RoomLaws.antt).
ghost use Rattle.std.specs.Prelude.{◌≡◌, ◌∷◌};
ghost use Rattle.tape.specs.Start.{after_of};
ghost use Rattle.listing.specs.Line.{frame_line};
ghost use Rattle.listing.specs.Field.{item_lines, good_lines, field_lines, with_all};

use codec::header::Header;
use codec::time::Time;
use reader::Items;
use recording::field::{Field, Found};

// Where writing goes on, and the start from which positions count, once there was one.
#[derive(Clone, Copy)]
pub struct Cursor {
    pub at: usize,
    pub start: Option<Time>,
}

// A line for each item, from the first on, dated from the header time.
fn items(frame: &[u8], start: Option<Time>, header: Time, out: &mut [u8], from: usize) -> usize
    ensures { record { bytes = out.new; at = result } ≡ with_all (record { bytes = out.old; at = from }) (item_lines start header frame.now 14) }
{
    let mut at = from;
    let items = Items::of(frame);
    for read in items {
        let Ok((_, decoded)) = read else {
            return at;
        };
        let item = decoded.item;
        let time = codec::time::recovered(header, item.offset);
        let payload = codec::field::part_at(frame, decoded.start, decoded.len);
        at = crate::line::item(out, at, start, time, item, payload).unwrap_or(at);
    }
    at
}

fn frame(header: Header, start: Option<Time>, body: &[u8], out: &mut [u8], at: usize) -> usize
    ensures { record { bytes = out.new; at = result } ≡ with_all (record { bytes = out.old; at = at }) (frame_line header ∷ item_lines start header.time body.now 14) }
{
    let first = crate::line::frame(out, at, header).unwrap_or(at);
    items(body, start, header.time, out, first)
}

fn good(
    out: &mut [u8],
    at: usize,
    start: Option<Time>,
    field: Field,
    found: Found,
    body: &[u8],
) -> usize
    ensures { record { bytes = out.new; at = result } ≡ with_all (record { bytes = out.old; at = at }) (good_lines start field.tag field.length found body.now) }
{
    match found {
        Found::Frame(header) => frame(header, start, body, out, at),
        Found::Note => crate::escape::note(out, at, body).unwrap_or(at),
        Found::Start(time) => crate::line::start(out, at, time).unwrap_or(at),
        Found::Skipped => crate::line::skipped(out, at, field.tag, field.length).unwrap_or(at),
    }
}

fn laid(out: &mut [u8], at: usize, start: Option<Time>, field: Field, buffer: &[u8]) -> usize
    ensures { record { bytes = out.new; at = result } ≡ with_all (record { bytes = out.old; at = at }) (field_lines start field buffer.now) }
{
    let body = text::part::front(buffer, field.length as usize);
    match field.found {
        Ok(found) => good(out, at, start, field, found, body),
        Err(why) => crate::line::refused(out, at, field.tag, u8::from(why)).unwrap_or(at),
    }
}

pub fn lines(out: &mut [u8], cursor: Cursor, field: Field, buffer: &[u8]) -> Cursor
    ensures at_after { record { bytes = out.new; at = result.at } ≡ with_all (record { bytes = out.old; at = cursor.at }) (field_lines cursor.start field buffer.now) }
    ensures start_after { result.start ≡ after_of cursor.start field.found }
{
    Cursor {
        at: laid(out, cursor.at, cursor.start, field, buffer),
        start: tape::after(cursor.start, field.found),
    }
}
