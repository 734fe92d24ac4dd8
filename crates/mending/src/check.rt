// What a checker says: a line for each field, what is left after them, and how many of each sort there were.
ghost use Rattle.std.specs.Prelude.{◌≡◌, ◌≤◌, length, true};
ghost use Rattle.codec.specs.Number.{Wrote};
ghost use Rattle.text.specs.Draft.{row_of};
ghost use Rattle.recording.specs.Pieces.{sound_of};
ghost use Rattle.mending.specs.Check.{name_of, found_line, rest_text, fields_line, tallied};

use recording::error::RecordError;
use recording::field::{Field, Found};
use recording::pieces::Place;
use text::draft::Draft;

// Room for any line: a name of at most 8 bytes and three numbers are 72.
type Line = Draft<128>;

// How many fields were good and how many bad. The unknown ones are counted by reading.
#[derive(Clone, Copy)]
pub struct Tally {
    pub good: u32,
    pub bad: u32,
}

pub fn count(tally: Tally, found: Result<Found, RecordError>) -> Tally
    ensures { result ≡ tallied tally found }
{
    match found {
        Ok(Found::Skipped) => tally,
        Ok(_) => Tally {
            good: tally.good.saturating_add(1),
            ..tally
        },
        Err(_) => Tally {
            bad: tally.bad.saturating_add(1),
            ..tally
        },
    }
}

fn name(found: Found) -> &'static [u8]
    ensures { result.now ≡ name_of found }
{
    match found {
        Found::Skipped => b"unknown",
        _ => b"good",
    }
}

// A line of a name and numbers, put together in place: each field has one.
fn row(out: &mut [u8], at: usize, name: &[u8], vs: &[u64]) -> Option<usize>
    requires name_most { length name.now ≤ 8 }
    requires most { length vs.now ≤ 3 }
    ensures { Wrote true out.old at (row_of name.now vs.now) out.new result }
{
    let mut line = Line::new();
    line.add_row(name, vs);
    line.put(out, at)
}

// The line of a field that is complete. An output that is too short for it is left as it was.
pub fn line(out: &mut [u8], at: usize, field: Field) -> Option<usize>
    ensures { Wrote true out.old at (found_line field.tag field.length field.found) out.new result }
{
    let tag = field.tag as u64;
    let length = field.length as u64;
    match field.found {
        Ok(found) => row(out, at, name(found), &[tag, length]),
        Err(why) => row(out, at, b"bad", &[tag, u8::from(why) as u64, length]),
    }
}

// How many bytes the end has cut off from a field, where it has.
#[tactic(auto, unfolding(crate::specs::Check::rest_text))]
pub fn rest(out: &mut [u8], at: usize, place: Place) -> Option<usize>
    ensures { Wrote true out.old at (rest_text (sound_of place).past) out.new result }
{
    let n = recording::pieces::inside(place);
    if n == 0 {
        return codec::number::put_bytes(out, at, b"");
    }
    Line::row(b"rest", &[u8::from(RecordError::Cut) as u64, n as u64]).put(out, at)
}

// The last line. How many fields were unknown the place tells.
pub fn fields(out: &mut [u8], at: usize, tally: Tally, place: Place) -> Option<usize>
    ensures { Wrote true out.old at (fields_line tally place.skipped) out.new result }
{
    Line::row(
        b"fields",
        &[tally.good as u64, tally.bad as u64, place.skipped as u64],
    )
    .put(out, at)
}
