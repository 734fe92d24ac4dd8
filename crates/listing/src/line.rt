// Lines of a bounded length, put together first, so that an output without room for the whole of a line is left
// as it was; and the line of an item, whose bytes may be many.
ghost use Rattle.std.specs.Prelude.{◌≡◌, true, ◌∷◌, [], ◌++◌};
ghost use Rattle.codec.specs.Number.{Wrote};
ghost use Rattle.text.specs.Draft.{Adds};
ghost use Rattle.listing.specs.Line.{fixed_of, spread, place_text, shown_text, front_text, frame_line, item_line, start_line, refused_line, skipped_line, end_line};

use crate::word;
use crate::word::Line;
use codec::header::Header;
use codec::item::Item;
use codec::time::Time;

pub fn frame(out: &mut [u8], at: usize, h: Header) -> Option<usize>
    ensures { Wrote true out.old at (frame_line h) out.new result }
{
    let mut line = Line::new();
    line.push(b"frame");
    line.field(h.sequence as u64);
    word::time(&mut line, h.time);
    line.field(h.length as u64);
    line.push(b"\n");
    line.put(out, at)
}

pub fn start(out: &mut [u8], at: usize, t: Time) -> Option<usize>
    ensures { Wrote true out.old at (start_line t) out.new result }
{
    let mut line = Line::new();
    line.push(b"start");
    word::time(&mut line, t);
    line.push(b"\n");
    line.put(out, at)
}

// Any number is an answer here: an error in its place would ask more of a caller.
pub fn refused(out: &mut [u8], at: usize, tag: u8, answer: u8) -> Option<usize>
    ensures { Wrote true out.old at (refused_line tag answer) out.new result }
{
    let mut line = Line::new();
    line.add_row(b"refused", &[tag as u64, answer as u64]);
    line.put(out, at)
}

pub fn skipped(out: &mut [u8], at: usize, tag: u8, length: u16) -> Option<usize>
    ensures { Wrote true out.old at (skipped_line tag length) out.new result }
{
    let mut line = Line::new();
    line.add_row(b"skipped", &[tag as u64, length as u64]);
    line.put(out, at)
}

// Any number here too.
pub fn end(out: &mut [u8], at: usize, answer: u8, skipped: u32) -> Option<usize>
    ensures { Wrote true out.old at (end_line answer skipped) out.new result }
{
    Line::row(b"end", &[answer as u64, skipped as u64]).put(out, at)
}

fn place(line: &mut Line, start: Option<Time>, t: Time, it: Item)
    ensures { Adds 256 line.old (place_text start t it) line.new }
{
    line.push(b" ");
    word::time(line, t);
    word::position(line, start, t);
    word::bus(line, it.ident);
    line.field(it.network as u64);
}

fn shown(line: &mut Line, it: Item, n: usize)
    ensures { Adds 256 line.old (shown_text it n) line.new }
{
    word::ident(line, it.ident);
    word::state(line, it.state);
    word::load(line, it.carries, n);
    line.push(b" ");
}

// What stands before an item's bytes.
fn front(line: &mut Line, start: Option<Time>, t: Time, it: Item, n: usize)
    ensures { Adds 256 line.old (front_text start t it n) line.new }
{
    place(line, start, t, it);
    shown(line, it, n);
}

// A slice may be of any length, so the room is asked for first and the bytes are written straight to the
// output. script does so too, in lower case and without a line feed.
fn with_bytes(out: &mut [u8], at: usize, front: &[u8], src: &[u8]) -> Option<usize>
    ensures { Wrote true out.old at (front.now ++ spread (fixed_of 16 2) src.now ++ (10 ∷ [])) out.new result }
{
    let room = out.len().checked_sub(at)?.checked_sub(front.len() + 1)?;
    if room / 2 < src.len() {
        return None;
    }
    let a = crate::escape::lay(out, at, front);
    let b = crate::digit::bytes(out, a, src);
    Some(crate::escape::lay(out, b, b"\n"))
}

pub fn item(
    out: &mut [u8],
    at: usize,
    start: Option<Time>,
    time: Time,
    it: Item,
    payload: &[u8],
) -> Option<usize>
    ensures { Wrote true out.old at (item_line start time it payload.now) out.new result }
{
    let mut line = Line::new();
    front(&mut line, start, time, it, payload.len());
    let bytes = word::only_if(it.carries, payload);
    if bytes.is_empty() {
        line.push(b"-\n");
        return line.put(out, at);
    }
    with_bytes(out, at, line.as_slice(), bytes)
}
