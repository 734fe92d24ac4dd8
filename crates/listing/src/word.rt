// The words of a line, each after a space. No `Display`: the library says what `write!` wrote where it ends well, and
// nothing says that it does.
ghost use Rattle.std.specs.Prelude.{◌≡◌, [], ◌%◌, ◌^◌, ◌≤◌};
ghost use Rattle.codec.specs.Choice.{pick};
ghost use Rattle.text.specs.Draft.{Adds};
ghost use Rattle.listing.specs.Line.{dash, hex_text, time_text, sign_text, signed_text, placed_text, position_text, kind_text, is_fd, bus_text, can_text, channels_text, flexray_text, error_text, ident_text, state_text, load_text};

use codec::ident::{Ident, Kind};
use codec::time::Time;
use tape::TooFar;
use text::draft::Draft;

// Room for any line, the 256 of the clauses: what stands before an item's bytes is at most 156 bytes (proofs/RoomLaws.antt),
// another line less.
pub(crate) type Line = Draft<256>;

// What is not there.
fn dash(line: &mut Line)
    ensures { Adds 256 line.old dash line.new }
{
    line.push(b" -");
}

fn hex<const WIDTH: usize>(line: &mut Line, v: u64)
    requires { WIDTH ≤ 8 }
    ensures { Adds 256 line.old (hex_text WIDTH v) line.new }
{
    line.push(b" ");
    line.push(&crate::digit::fixed::<16, WIDTH>(v));
}

pub(crate) fn time(line: &mut Line, t: Time)
    ensures { Adds 256 line.old (time_text t) line.new }
{
    line.field(t.sec);
    line.push(b".");
    line.push(&crate::digit::fixed::<10, 9>(t.nano as u64));
}

fn sign(line: &mut Line, n: i64)
    ensures { Adds 256 line.old (sign_text n) line.new }
{
    if n < 0 {
        line.push(b" -");
    } else {
        line.push(b" ");
    }
}

fn signed(line: &mut Line, n: i64)
    ensures { Adds 256 line.old (signed_text n) line.new }
{
    sign(line, n);
    line.decimal(n.unsigned_abs());
}

pub(crate) fn position(line: &mut Line, start: Option<Time>, t: Time)
    ensures { Adds 256 line.old (position_text start t) line.new }
{
    match start {
        Some(start) => placed(line, tape::position(start, t)),
        None => dash(line),
    }
}

fn placed(line: &mut Line, sample: Result<i64, TooFar>)
    ensures { Adds 256 line.old (placed_text sample) line.new }
{
    match sample {
        Ok(n) => signed(line, n),
        Err(TooFar) => dash(line),
    }
}

// A text that may be left out.
pub(crate) fn only_if(yes: bool, s: &[u8]) -> &[u8]
    ensures { result.now ≡ pick yes s.now [] }
{
    if yes { s } else { &s[..0] }
}

fn kind(line: &mut Line, k: Kind)
    ensures { Adds 256 line.old (kind_text k) line.new }
{
    match k {
        Kind::Can => line.push(b" CAN"),
        Kind::Lin => line.push(b" LIN"),
        Kind::FlexRay => line.push(b" FLEXRAY"),
    }
}

// Only an id tells CAN FD from CAN.
fn is_fd(id: Ident) -> bool
    ensures { result ≡ is_fd id }
{
    match id {
        Ident::Can(key) => codec::ident::can_fd(key),
        _ => false,
    }
}

pub(crate) fn bus(line: &mut Line, id: Ident)
    ensures { Adds 256 line.old (bus_text id) line.new }
{
    kind(line, codec::ident::kind_of(id));
    line.push(only_if(is_fd(id), b"FD"));
}

// The three bits above are of its type.
fn can_id(key: u32) -> u32
    ensures { result ≡ key % 2 ^ 29 }
{
    key & 0x1fff_ffff
}

// Bit 31 of a CAN key: an extended id.
#[tactic(auto, unfolding(crate::specs::Line::can_text, crate::specs::Line::id_digits))]
fn can(line: &mut Line, key: u32)
    ensures { Adds 256 line.old (can_text key) line.new }
{
    let id = can_id(key) as u64;
    if key >> 31 == 1 {
        hex::<8>(line, id);
    } else {
        hex::<3>(line, id);
    }
}

fn channels(line: &mut Line, c: u8)
    ensures { Adds 256 line.old (channels_text c) line.new }
{
    line.push(b" ");
    line.push(only_if(c % 2 == 1, b"A"));
    line.push(only_if(c / 2 % 2 == 1, b"B"));
}

fn flexray(line: &mut Line, c: u8, slot: u16, cycle: u8)
    ensures { Adds 256 line.old (flexray_text c slot cycle) line.new }
{
    channels(line, c);
    line.push(b":");
    line.decimal(slot as u64);
    line.push(b":");
    line.decimal(cycle as u64);
}

fn error(line: &mut Line, c: u8)
    ensures { Adds 256 line.old (error_text c) line.new }
{
    channels(line, c);
    line.push(b":-:-");
}

pub(crate) fn ident(line: &mut Line, id: Ident)
    ensures { Adds 256 line.old (ident_text id) line.new }
{
    match id {
        Ident::Can(key) => can(line, key),
        Ident::Lin(pid) => hex::<2>(line, pid as u64),
        Ident::FlexRay {
            channels: c,
            slot,
            cycle,
        } => flexray(line, c, slot, cycle),
        Ident::FlexRayError(c) => error(line, c),
        Ident::Bare(_) => dash(line),
    }
}

pub(crate) fn state(line: &mut Line, shown: Option<u8>)
    ensures { Adds 256 line.old (state_text shown) line.new }
{
    match shown {
        Some(state) => hex::<2>(line, state as u64),
        None => dash(line),
    }
}

pub(crate) fn load(line: &mut Line, carries: bool, n: usize)
    ensures { Adds 256 line.old (load_text carries n) line.new }
{
    if carries {
        line.field(n as u64);
    } else {
        dash(line);
    }
}
