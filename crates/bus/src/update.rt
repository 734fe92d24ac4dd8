// State updates of the three buses as one kind of thing.
ghost use Rattle.std.specs.Prelude.{◌≡◌};
ghost use Rattle.bus.specs.Update.{counter_bits, can_byte, can_update, lin_update, flexray_update, update_cause, updated};
ghost use Rattle.codec.specs.Number.{Below};

use crate::source::Source;
use codec::ident::Kind;
use framer::cause::{Cause, check};

#[derive(Clone, Copy)]
pub struct Update {
    pub source: u64,
    pub kind: Kind,
    // the state is one that can be; no Result, since 2, 4 and 3 go before its cause
    pub good: bool,
    pub state: u8,
}

// The Tx error counter in four bits, which cannot hold 31.
#[tactic(auto, unfolding(crate::specs::Update::counter_bits))]
fn counter_bits(counter: u32) -> u8
    ensures { Below (counter_bits counter) 16 result }
{
    (counter / 8).min(15) as u8
}

#[tactic(auto, using(crate::proofs::BusLaws::can_made), unfolding(crate::specs::Update::can_byte))]
fn can_byte(online: bool, passive: bool, bus_off: bool, counter: u32) -> u8
    ensures { result ≡ can_byte online passive bus_off counter }
{
    if !online {
        return 0;
    }
    64 | (passive as u8) << 5 | (bus_off as u8) << 4 | counter_bits(counter)
}

#[tactic(auto, unfolding(crate::specs::Update::can_update))]
pub fn can(source: u64, online: bool, passive: bool, bus_off: bool, counter: u32) -> Update
    ensures { result ≡ can_update source online passive bus_off counter }
{
    Update {
        source,
        kind: Kind::Can,
        good: !(passive & bus_off) & (counter <= 255),
        state: can_byte(online, passive, bus_off, counter),
    }
}

#[tactic(auto, unfolding(crate::specs::Update::lin_update))]
pub fn lin(source: u64, online: bool) -> Update
    ensures { result ≡ lin_update source online }
{
    Update {
        source,
        kind: Kind::Lin,
        good: true,
        state: (online as u8) << 6,
    }
}

// The four low bits are bound to reports: three to errors without a frame, the lowest to a conflict.
#[tactic(auto, unfolding(crate::specs::Update::flexray_update))]
pub fn flexray(source: u64, online: bool, bits: u32) -> Update
    ensures { result ≡ flexray_update source online bits }
{
    Update {
        source,
        kind: Kind::FlexRay,
        good: (bits <= 63) & (bits & 15 == 0),
        state: (online as u8) << 6 | (bits & 63) as u8,
    }
}

// 2, 4, 3, 5
#[tactic(auto, unfolding(crate::specs::Update::update_cause, crate::specs::Filter::same_kind))]
pub fn update_cause(count: usize, s: Source, u: Update) -> Result<(), Cause>
    ensures { result ≡ update_cause count s u }
{
    check(u.source < count as u64, Cause::NoSource)?;
    check(s.kind == u.kind, Cause::OtherKind)?;
    check(s.started, Cause::NotStarted)?;
    check(u.good, Cause::OutOfRange)
}

#[tactic(auto, unfolding(crate::specs::Update::updated))]
pub fn apply(mut s: Source, u: Update) -> Source
    ensures { result ≡ updated s u }
{
    s.state = u.state;
    s.known = true;
    s
}
