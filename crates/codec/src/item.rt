// An item: offset (2), flags (1), network id (1), then, where present, state (1), frame id (4, 1 or 3),
// payload length (1) and payload. The payload stands beside the item's fields.
ghost use Rattle.std.specs.Prelude.{◌≡◌, ◌++◌, ◌∷◌, [], ◌+◌, ◌*◌, ◌/◌, ◌≤◌, ◌<◌, length, true};
ghost use Rattle.codec.specs.Number.{be, Wrote, Laid, Sized, Below};
ghost use Rattle.codec.specs.Ident.{ident_bytes, ident_bit, ident_ok};
ghost use Rattle.codec.specs.Item.{state_bytes, state_bit, lin_zero, shown_ok, state_ok, set_ok, set_for, set_of, load_ok, load_bytes, load_length, flags_of, encode, item_ok, item_length};

use crate::ident::{Ident, Kind};
use crate::time::Ticks;

#[derive(Clone, Copy)]
pub struct Item {
    pub offset: Ticks,
    pub network: u8,
    // the state byte that the item shows
    pub state: Option<u8>,
    pub ident: Ident,
    // whether a payload is present, which may be empty; it stays beside the item (docs/DECISIONS.md, "Forms that are asked for")
    pub carries: bool,
}

fn ident_bit(ident: Ident) -> u8
    ensures { Below (ident_bit ident) 2 result }
{
    match ident {
        Ident::Bare(_) => 0,
        _ => 1,
    }
}

// Which of state, id and payload are present, as bits 2, 1 and 0: the wire's own bits, as `read_flags` gives them.
fn set_of(state: Option<u8>, ident: Ident, carries: bool) -> u8
    ensures { Below (set_of state ident carries) 8 result }
{
    u8::from(state.is_some()) << 2 | ident_bit(ident) << 1 | u8::from(carries)
}

// Id and payload, all three, state and id, state alone. The set stays a number: it is three bits of a byte of the wire.
pub fn set_ok(set: u8) -> bool
    ensures { result ≡ set_ok set }
{
    (set == 3) | (set == 7) | (set == 6) | (set == 4)
}

// An error without a frame is told by state and id alone.
fn set_for(ident: Ident, set: u8) -> bool
    ensures { result ≡ set_for ident set }
{
    match ident {
        Ident::FlexRayError(_) => set == 6,
        _ => set_ok(set),
    }
}

// Bits 5 and 4 of a LIN state byte are zero.
#[tactic(auto, unfolding(crate::specs::Item::lin_zero))]
pub fn lin_zero(state: u8) -> bool
    ensures { result ≡ lin_zero state }
{
    state >> 4 & 3 == 0
}

fn shown_ok(kind: Kind, b: u8) -> bool
    ensures { result ≡ shown_ok kind b }
{
    match kind {
        Kind::Lin => lin_zero(b),
        Kind::Can | Kind::FlexRay => true,
    }
}

pub fn state_ok(kind: Kind, state: Option<u8>) -> bool
    ensures { result ≡ state_ok kind state }
{
    match state {
        Some(b) => shown_ok(kind, b),
        None => true,
    }
}

fn load_ok(carries: bool, most: usize, n: usize) -> bool
    ensures { result ≡ load_ok carries most n }
{
    if carries { n <= most } else { n == 0 }
}

// A flag set that goes with the id, reserved bits right, the id in range and the payload no longer than allowed.
#[tactic(auto, unfolding(crate::specs::Item::item_ok))]
pub fn item_ok(item: Item, n: usize) -> bool
    ensures { result ≡ item_ok item n }
{
    let ident = item.ident;
    let set = set_for(ident, set_of(item.state, ident, item.carries));
    let bits = state_ok(crate::ident::kind_of(ident), item.state);
    let load = load_ok(item.carries, crate::ident::most_of(ident), n);
    set & bits & crate::ident::ident_ok(ident) & load
}

fn ident_len(ident: Ident) -> usize
    ensures { Sized (ident_bytes ident) 4 result }
{
    match ident {
        Ident::Can(_) => 4,
        Ident::Lin(_) => 1,
        Ident::FlexRay { .. } | Ident::FlexRayError(_) => 3,
        Ident::Bare(_) => 0,
    }
}

fn load_len(carries: bool, n: u8) -> usize
    ensures { Below (load_length carries n) 257 result }
{
    if carries { 1 + usize::from(n) } else { 0 }
}

// How many bytes the item is with a payload of n bytes.
pub fn item_len(item: Item, n: u8) -> usize
    ensures { Below (item_length item n) 266 result }
{
    4 + usize::from(item.state.is_some()) + ident_len(item.ident) + load_len(item.carries, n)
}

// State-present in bit 7, id-present in bit 6, payload-present in bit 5, network type in bits 4 to 0.
fn flags_of(item: Item) -> u8
    ensures { result ≡ flags_of item }
{
    let set = set_of(item.state, item.ident, item.carries);
    set << 5 | u8::from(crate::ident::kind_of(item.ident))
}

// Each part asks for its own room, and `write_item` for all of it once; slice and index stay apart, as in number.rt. Two bytes
// of an offset are stored directly, because every item has them.
fn lay_front(out: &mut [u8], at: usize, offset: u16, flags: u8, network: u8) -> usize
    requires { at + 4 ≤ length out.old }
    ensures { Laid out.old at (be 2 offset ++ flags ∷ network ∷ []) out.new result }
{
    let x = offset as u64;
    out[at] = crate::number::low8(x >> 8);
    out[at + 1] = crate::number::low8(x);
    out[at + 2] = flags;
    out[at + 3] = network;
    at + 4
}

fn lay_state(out: &mut [u8], at: usize, state: Option<u8>) -> usize
    requires { at + length (state_bytes state) ≤ length out.old }
    ensures { Laid out.old at (state_bytes state) out.new result }
{
    match state {
        Some(b) => {
            out[at] = b;
            at + 1
        }
        None => at,
    }
}

#[tactic(auto, using(crate::proofs::ItemLaws::front_sum))]
fn flexray_front(channels: u8, slot: u16) -> u8
    requires channels_bound { channels ≤ 3 }
    requires slot_bound { slot ≤ 2047 }
    ensures { result ≡ channels * 64 + 8 + slot / 256 }
{
    channels << 6 | 8 | (slot >> 8) as u8
}

fn error_front(channels: u8) -> u8
    requires { channels ≤ 3 }
    ensures { result ≡ channels * 64 }
{
    channels << 6
}

fn lay_ident(out: &mut [u8], at: usize, ident: Ident) -> usize
    requires ident_in_bounds { at + length (ident_bytes ident) ≤ length out.old }
    requires ident_value { ident_ok ident ≡ true }
    ensures { Laid out.old at (ident_bytes ident) out.new result }
{
    match ident {
        Ident::Can(key) => {
            crate::number::put_be(out, at, key as u64, 4);
            at + 4
        }
        Ident::Lin(pid) => {
            out[at] = pid;
            at + 1
        }
        Ident::FlexRay {
            channels,
            slot,
            cycle,
        } => {
            out[at] = flexray_front(channels, slot);
            out[at + 1] = crate::number::low8(slot as u64);
            out[at + 2] = cycle;
            at + 3
        }
        Ident::FlexRayError(channels) => {
            out[at] = error_front(channels);
            out[at + 1] = 0;
            out[at + 2] = 0;
            at + 3
        }
        Ident::Bare(_) => at,
    }
}

fn lay_load(out: &mut [u8], at: usize, carries: bool, payload: &[u8]) -> usize
    requires payload_len_bound { length payload.now < 256 }
    requires payload_in_bounds { at + length (load_bytes carries payload.now) ≤ length out.old }
    ensures { Laid out.old at (load_bytes carries payload.now) out.new result }
{
    if !carries {
        return at;
    }
    let n = payload.len();
    out[at] = n as u8;
    crate::number::put_bytes(out, at + 1, payload);
    at + 1 + n
}

pub fn write_item(out: &mut [u8], at: usize, item: Item, payload: &[u8]) -> Option<usize>
    ensures { Wrote (item_ok item (length payload.now)) out.old at (encode item payload.now) out.new result }
{
    let n = payload.len();
    if !item_ok(item, n) {
        return None;
    }
    let size = item_len(item, n as u8);
    crate::number::get_part(out, at, size)?;
    let flags = flags_of(item);
    let a = lay_front(out, at, item.offset.0, flags, item.network);
    let b = lay_state(out, a, item.state);
    let d = lay_ident(out, b, item.ident);
    Some(lay_load(out, d, item.carries, payload))
}
