// Answers as text. Each short one is put together first, so that an output without room for the whole of it is left
// as it was.
ghost use Rattle.std.specs.Prelude.{◌≡◌, true, ◌++◌, length};
ghost use Rattle.codec.specs.Number.{Wrote};
ghost use Rattle.text.specs.Put.{decimal_of, hex_of};
ghost use Rattle.text.specs.Draft.{Adds, field_text};
ghost use Rattle.script.specs.Answer.{time_text, state_text, flexray_text, error_text, ident_text, load_text, placed_text, item_text, judged_text, stepped_text, bad_text, numbered_text, back_text, timed_text, bytes_text, taken_text};

use codec::header::Header;
use codec::ident::Ident;
use codec::item::Item;
use codec::refusal::Refusal;
use codec::time::{Nanos, Time};
use reader::Stepped;
use text::draft::Draft;

// Room for any answer but its bytes, which are written straight to the output: the 256 of the clauses.
type Answer = Draft<256>;

fn time(draft: &mut Answer, t: Time)
    ensures { Adds 256 draft.old (time_text t) draft.new }
{
    draft.field(t.sec);
    draft.field(u64::from(t.nano))
}

fn state(draft: &mut Answer, shown: Option<u8>)
    ensures { Adds 256 draft.old (state_text shown) draft.new }
{
    match shown {
        Some(b) => draft.field(u64::from(b)),
        None => draft.push(b" -"),
    }
}

fn flexray(draft: &mut Answer, channels: u8, slot: u16, cycle: u8)
    ensures { Adds 256 draft.old (flexray_text channels slot cycle) draft.new }
{
    draft.field(u64::from(channels));
    draft.push(b"/");
    draft.decimal(u64::from(slot));
    draft.push(b"/");
    draft.decimal(u64::from(cycle))
}

fn error(draft: &mut Answer, channels: u8)
    ensures { Adds 256 draft.old (error_text channels) draft.new }
{
    draft.field(u64::from(channels));
    draft.push(b"/-/-")
}

fn ident(draft: &mut Answer, id: Ident)
    ensures { Adds 256 draft.old (ident_text id) draft.new }
{
    match id {
        Ident::Can(key) => draft.field(u64::from(key)),
        Ident::Lin(pid) => draft.field(u64::from(pid)),
        Ident::FlexRay {
            channels,
            slot,
            cycle,
        } => flexray(draft, channels, slot, cycle),
        Ident::FlexRayError(channels) => error(draft, channels),
        Ident::Bare(_) => draft.push(b" -"),
    }
}

// As a listing shows it; text, which both stand on, knows no items.
fn load(draft: &mut Answer, carries: bool, n: usize)
    ensures { Adds 256 draft.old (load_text carries n) draft.new }
{
    if carries {
        draft.field(n as u64)
    } else {
        draft.push(b" -")
    }
}

fn placed(draft: &mut Answer, next: usize, t: Time)
    ensures { Adds 256 draft.old (placed_text next t) draft.new }
{
    draft.push(b"0");
    draft.field(next as u64);
    time(draft, t)
}

fn item(draft: &mut Answer, it: Item, n: usize)
    ensures { Adds 256 draft.old (item_text it n) draft.new }
{
    let shown = it.state;
    let id = it.ident;
    let kind = u8::from(codec::ident::kind_of(id));
    draft.field(u64::from(kind));
    draft.field(u64::from(it.network));
    state(draft, shown);
    ident(draft, id);
    load(draft, it.carries, n)
}

fn lay_judged(draft: &mut Answer, judged: Result<Header, Refusal>)
    ensures { Adds 256 draft.old (judged_text judged) draft.new }
{
    let answer = reader::judged_number(judged);
    let header = reader::judged_header(judged);
    let t = header.time;
    draft.decimal(u64::from(answer));
    draft.field(u64::from(header.sequence));
    time(draft, t);
    draft.field(u64::from(header.length))
}

fn lay_stepped(draft: &mut Answer, stepped: Result<Option<Stepped>, Refusal>)
    ensures { Adds 256 draft.old (stepped_text stepped) draft.new }
{
    match stepped {
        Ok(Some(step)) => {
            let t = step.time;
            let it = step.item;
            placed(draft, step.next, t);
            item(draft, it, step.length)
        }
        Ok(None) => draft.push(b"0 end"),
        Err(why) => {
            draft.decimal(u64::from(u8::from(why)));
            draft.push(b" - - - - - - - -")
        }
    }
}

pub fn judged(out: &mut [u8], at: usize, judged: Result<Header, Refusal>) -> Option<usize>
    ensures { Wrote true out.old at (judged_text judged) out.new result }
{
    let mut draft = Answer::new();
    lay_judged(&mut draft, judged);
    draft.put(out, at)
}

pub fn stepped(
    out: &mut [u8],
    at: usize,
    stepped: Result<Option<Stepped>, Refusal>,
) -> Option<usize>
    ensures { Wrote true out.old at (stepped_text stepped) out.new result }
{
    let mut draft = Answer::new();
    lay_stepped(&mut draft, stepped);
    draft.put(out, at)
}

// A line that is no call, by its number from 1.
pub fn bad(out: &mut [u8], at: usize, line: u64) -> Option<usize>
    ensures { Wrote true out.old at (bad_text line) out.new result }
{
    let mut draft = Answer::new();
    draft.push(b"?");
    draft.field(line);
    draft.put(out, at)
}

// The answer of most calls, by its number, since that is what is printed; so in the functions below.
pub fn done(out: &mut [u8], at: usize, answer: u8) -> Option<usize>
    ensures { Wrote true out.old at (decimal_of answer) out.new result }
{
    text::put::decimal(out, at, u64::from(answer))
}

fn lay_numbered(draft: &mut Answer, answer: u8, v: u64)
    ensures { Adds 256 draft.old (numbered_text answer v) draft.new }
{
    draft.decimal(u64::from(answer));
    draft.field(v)
}

pub fn numbered(out: &mut [u8], at: usize, answer: u8, v: u64) -> Option<usize>
    ensures { Wrote true out.old at (numbered_text answer v) out.new result }
{
    let mut draft = Answer::new();
    lay_numbered(&mut draft, answer, v);
    draft.put(out, at)
}

fn lay_back(draft: &mut Answer, answer: u8, back: u64)
    ensures { Adds 256 draft.old (back_text answer back) draft.new }
{
    draft.decimal(u64::from(answer));
    draft.push(b" back");
    draft.field(back)
}

// The answer of a report or a tick: how far the clock was behind, where it was.
#[tactic(auto, unfolding(crate::specs::Answer::timed_text))]
pub fn timed(out: &mut [u8], at: usize, answer: u8, back: Nanos) -> Option<usize>
    ensures { Wrote true out.old at (timed_text answer back.0) out.new result }
{
    if back.0 == 0 {
        return done(out, at, answer);
    }
    let mut draft = Answer::new();
    lay_back(&mut draft, answer, back.0);
    draft.put(out, at)
}

// How many characters bytes are.
fn hex_len(part: &[u8]) -> usize
    ensures { result ≡ length (hex_of part.now) }
{
    if part.is_empty() { 1 } else { 2 * part.len() }
}

// A short text, and a part of a frame or an output. No other answer may be long, so here the room is
// asked for first and the bytes are written straight to the output.
fn before_bytes(out: &mut [u8], at: usize, front: &[u8], part: &[u8]) -> Option<usize>
    ensures { Wrote true out.old at (front.now ++ hex_of part.now) out.new result }
{
    let middle = codec::number::get_part(out, at, front.len())?;
    codec::number::get_part(out, middle, hex_len(part))?;
    codec::number::put_bytes(out, at, front);
    text::put::hex(out, middle, part)
}

pub fn with_bytes(out: &mut [u8], at: usize, answer: u8, part: &[u8]) -> Option<usize>
    ensures { Wrote true out.old at (bytes_text answer part.now) out.new result }
{
    let mut draft = Answer::new();
    draft.decimal(u64::from(answer));
    draft.push(b" ");
    before_bytes(out, at, draft.as_slice(), part)
}

pub fn taken(out: &mut [u8], at: usize, answer: u8, size: u64, part: &[u8]) -> Option<usize>
    ensures { Wrote true out.old at (taken_text answer size part.now) out.new result }
{
    let mut draft = Answer::new();
    lay_numbered(&mut draft, answer, size);
    draft.push(b" ");
    before_bytes(out, at, draft.as_slice(), part)
}
