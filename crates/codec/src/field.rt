// The fields of an item, read left to right: missing bytes before a wrong value, the first refusal straight up.
// The lent bytes and an index go into each reader, and the index past what it read comes out: a cursor would hold both, and hide
// the indices that `Decoded` hands on.
ghost use Rattle.std.specs.Prelude.{◌≡◌};
ghost use Rattle.codec.specs.Field.{read_flags, read_state, can_ident, lin_ident, frame_ident, error_ident, flexray_ident, read_can, read_lin, read_flexray, read_ident, read_load, read_item, bytes_at};

use crate::ident::{Ident, Kind};
use crate::item::Item;
use crate::number::{get, get_part};
use crate::refusal::Refusal;
use crate::time::Ticks;

// Where a payload starts, how long it is and where it ends.
#[derive(Clone, Copy)]
pub struct Load {
    pub start: usize,
    pub len: usize,
    pub next: usize,
}

// An item, the place of its payload, and where the next item starts.
#[derive(Clone, Copy)]
pub struct Decoded {
    pub item: Item,
    pub start: usize,
    pub len: usize,
    pub next: usize,
}

// The network type and which of state, id and payload are present.
#[tactic(auto, unfolding(crate::specs::Field::read_flags))]
pub fn read_flags(s: &[u8], at: usize) -> Result<(Kind, u8, usize), Refusal>
    ensures { result ≡ read_flags s.now at }
{
    let Some((b, next)) = get(s, at, 1) else {
        return Err(Refusal::Missing);
    };
    let flags = b as u8;
    let kind = Kind::try_from(flags & 31)?;
    let set = flags >> 5;
    if crate::item::set_ok(set) {
        Ok((kind, set, next))
    } else {
        Err(Refusal::Flags)
    }
}

#[tactic(auto, unfolding(crate::specs::Field::read_state))]
pub fn read_state(
    s: &[u8],
    at: usize,
    kind: Kind,
    present: bool,
) -> Result<(Option<u8>, usize), Refusal>
    ensures { result ≡ read_state s.now at kind present }
{
    if !present {
        return Ok((None, at));
    }
    let Some((b, next)) = get(s, at, 1) else {
        return Err(Refusal::Missing);
    };
    let state = Some(b as u8);
    if crate::item::state_ok(kind, state) {
        Ok((state, next))
    } else {
        Err(Refusal::Reserved)
    }
}

#[tactic(auto, unfolding(crate::specs::Field::can_ident))]
fn can_ident(key: u32, next: usize) -> Result<(Ident, usize), Refusal>
    ensures { result ≡ can_ident key next }
{
    if !crate::ident::can_zero(key) {
        return Err(Refusal::Reserved);
    }
    if crate::ident::can_range(key) {
        Ok((Ident::Can(key), next))
    } else {
        Err(Refusal::Range)
    }
}

// Each of `read_can` and `read_lin` is a row of the wire: one function of a width and a closure would hide which.
#[tactic(auto, unfolding(crate::specs::Field::read_can))]
fn read_can(s: &[u8], at: usize) -> Result<(Ident, usize), Refusal>
    ensures { result ≡ read_can s.now at }
{
    let Some((key, next)) = get(s, at, 4) else {
        return Err(Refusal::Missing);
    };
    can_ident(key as u32, next)
}

#[tactic(auto, unfolding(crate::specs::Field::lin_ident))]
fn lin_ident(pid: u8, next: usize) -> Result<(Ident, usize), Refusal>
    ensures { result ≡ lin_ident pid next }
{
    if crate::ident::pid_ok(u32::from(pid)) {
        Ok((Ident::Lin(pid), next))
    } else {
        Err(Refusal::Range)
    }
}

#[tactic(auto, unfolding(crate::specs::Field::read_lin))]
fn read_lin(s: &[u8], at: usize) -> Result<(Ident, usize), Refusal>
    ensures { result ≡ read_lin s.now at }
{
    let Some((pid, next)) = get(s, at, 1) else {
        return Err(Refusal::Missing);
    };
    lin_ident(pid as u8, next)
}

#[tactic(auto, unfolding(crate::specs::Field::frame_ident))]
fn frame_ident(channels: u8, slot: u16, cycle: u8, next: usize) -> Result<(Ident, usize), Refusal>
    ensures { result ≡ frame_ident channels slot cycle next }
{
    if crate::ident::flexray_range(u32::from(channels), u32::from(slot), u32::from(cycle)) {
        Ok((
            Ident::FlexRay {
                channels,
                slot,
                cycle,
            },
            next,
        ))
    } else {
        Err(Refusal::Range)
    }
}

#[tactic(auto, unfolding(crate::specs::Field::error_ident))]
fn error_ident(channels: u8, slot: u16, cycle: u8, next: usize) -> Result<(Ident, usize), Refusal>
    ensures { result ≡ error_ident channels slot cycle next }
{
    if crate::ident::channels_ok(u32::from(channels)) & (slot == 0) & (cycle == 0) {
        Ok((Ident::FlexRayError(channels), next))
    } else {
        Err(Refusal::Range)
    }
}

// Bits 5 and 4 of the first byte are zero; bit 3 is one, or zero for an error without a frame, which is told by state
// and id alone.
#[tactic(auto, unfolding(crate::specs::Field::flexray_ident))]
fn flexray_ident(
    alone: bool,
    front: u8,
    low: u8,
    cycle: u8,
    next: usize,
) -> Result<(Ident, usize), Refusal>
    ensures { result ≡ flexray_ident alone front low cycle next }
{
    let marks = front >> 3 & 7;
    let channels = front >> 6;
    let slot = u16::from(front & 7) << 8 | u16::from(low);
    if marks == 1 {
        return frame_ident(channels, slot, cycle, next);
    }
    if alone & (marks == 0) {
        return error_ident(channels, slot, cycle, next);
    }
    Err(Refusal::Reserved)
}

#[tactic(auto, unfolding(crate::specs::Field::read_flexray))]
fn read_flexray(s: &[u8], at: usize, alone: bool) -> Result<(Ident, usize), Refusal>
    ensures { result ≡ read_flexray s.now at alone }
{
    let Some(next) = get_part(s, at, 3) else {
        return Err(Refusal::Missing);
    };
    flexray_ident(alone, s[at], s[at + 1], s[at + 2], next)
}

// Alone: the item has state and id, and nothing else.
#[tactic(auto, unfolding(crate::specs::Field::read_ident))]
pub fn read_ident(
    s: &[u8],
    at: usize,
    kind: Kind,
    present: bool,
    alone: bool,
) -> Result<(Ident, usize), Refusal>
    ensures { result ≡ read_ident s.now at kind present alone }
{
    if !present {
        return Ok((Ident::Bare(kind), at));
    }
    match kind {
        Kind::Can => read_can(s, at),
        Kind::Lin => read_lin(s, at),
        Kind::FlexRay => read_flexray(s, at, alone),
    }
}

#[tactic(auto, unfolding(crate::specs::Field::read_load))]
pub fn read_load(s: &[u8], at: usize, most: usize, present: bool) -> Result<Load, Refusal>
    ensures { result ≡ read_load s.now at most present }
{
    if !present {
        return Ok(Load {
            start: at,
            len: 0,
            next: at,
        });
    }
    let Some((n, start)) = get(s, at, 1) else {
        return Err(Refusal::Missing);
    };
    let len = n as usize;
    if most < len {
        return Err(Refusal::Payload);
    }
    let Some(next) = get_part(s, start, len) else {
        return Err(Refusal::Missing);
    };
    Ok(Load { start, len, next })
}

#[tactic(auto, unfolding(crate::specs::Field::read_item))]
pub fn read_item(s: &[u8], at: usize) -> Result<Decoded, Refusal>
    ensures { result ≡ read_item s.now at }
{
    let Some((ticks, a)) = get(s, at, 2) else {
        return Err(Refusal::Missing);
    };
    let (kind, set, b) = read_flags(s, a)?;
    let Some((network, d)) = get(s, b, 1) else {
        return Err(Refusal::Missing);
    };
    let (state, e) = read_state(s, d, kind, set >> 2 & 1 == 1)?;
    let (ident, f) = read_ident(s, e, kind, set >> 1 & 1 == 1, set == 6)?;
    let carries = set & 1 == 1;
    let load = read_load(s, f, crate::ident::most_of(ident), carries)?;
    Ok(Decoded {
        item: Item {
            offset: Ticks(ticks as u16),
            network: network as u8,
            state,
            ident,
            carries,
        },
        start: load.start,
        len: load.len,
        next: load.next,
    })
}

// The n bytes of s from index start, as that very part of s; empty where they are not all there, and no Option: a payload that is
// there may be empty, and whoever reads one has the item's answer beside it.
#[tactic(auto, using(crate::proofs::NumberLaws::miss, crate::proofs::NumberLaws::hit), unfolding(crate::specs::Field::bytes_at))]
pub fn part_at(s: &[u8], start: usize, n: usize) -> &[u8]
    ensures { result.now ≡ bytes_at s.now start n }
{
    match get_part(s, start, n) {
        Some(end) => &s[start..end],
        None => &s[..0],
    }
}
