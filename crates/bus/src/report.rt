// Reports of the three buses as one kind of thing: whether one is refused, what it hands over to be mirrored,
// and what it leaves of its source.
ghost use Rattle.std.specs.Prelude.{◌≡◌, true, false};
ghost use Rattle.bus.specs.Report.{can_report, lin_report, flexray_report, frame_report, conflict_report, error_bits, error_report, too_big, report_cause, noted, insists, offer_of, settled};

use crate::source::Source;
use codec::ident::Ident;
use codec::item::Item;
use codec::time::{Ticks, Time};
use framer::cause::{Cause, check};
use framer::offer::Offer;

#[derive(Clone, Copy)]
pub struct Report {
    pub source: u64,
    pub time: Time,
    pub ident: Ident,
    // as `Item.carries` (docs/DECISIONS.md, "Forms that are asked for")
    pub carries: bool,
    // identifier, cycle, channel and error bits are in range; no Result, since 7, 2, 4 and 3 go before its cause
    pub ranged: bool,
    // the bits of the state byte that are not bound to this frame, and the frame-bound ones that it raises;
    // two masks and no Option, since 255 and 0 say that nothing is bound (docs/DECISIONS.md, "The engine")
    pub kept: u8,
    pub raised: u8,
}

#[tactic(auto, unfolding(crate::specs::Report::can_report))]
pub fn can(source: u64, time: Time, key: u32) -> Report
    ensures { result ≡ can_report source time key }
{
    let ident = Ident::Can(key);
    Report {
        source,
        time,
        ident,
        carries: true,
        ranged: codec::ident::ident_ok(ident),
        kept: 255,
        raised: 0,
    }
}

#[tactic(auto, unfolding(crate::specs::Report::lin_report))]
pub fn lin(source: u64, time: Time, pid: u32, errors: u32) -> Report
    ensures { result ≡ lin_report source time pid errors }
{
    Report {
        source,
        time,
        ident: Ident::Lin(codec::number::low8(pid as u64)),
        carries: true,
        ranged: codec::ident::pid_ok(pid) & (errors <= 15),
        kept: 240,
        raised: codec::number::low8(errors as u64),
    }
}

// A frame of FlexRay, or where it carries nothing a conflict in sending it, which raises bit 0. The three numbers
// stay arguments, as the call has them: a struct would be a narrower type.
#[tactic(auto, unfolding(crate::specs::Report::flexray_report))]
fn flexray_report(
    source: u64,
    time: Time,
    channels: u32,
    slot: u32,
    cycle: u32,
    carries: bool,
    kept: u8,
    raised: u8,
) -> Report
    ensures { result ≡ flexray_report source time channels slot cycle carries kept raised }
{
    Report {
        source,
        time,
        ident: Ident::FlexRay {
            channels: codec::number::low8(channels as u64),
            slot: crate::filter::low16(slot),
            cycle: codec::number::low8(cycle as u64),
        },
        carries,
        ranged: codec::ident::flexray_range(channels, slot, cycle),
        kept,
        raised,
    }
}

pub fn flexray(source: u64, time: Time, channels: u32, slot: u32, cycle: u32) -> Report
    ensures { result ≡ frame_report source time channels slot cycle }
{
    flexray_report(source, time, channels, slot, cycle, true, 255, 0)
}

pub fn conflict(source: u64, time: Time, channels: u32, slot: u32, cycle: u32) -> Report
    ensures { result ≡ conflict_report source time channels slot cycle }
{
    flexray_report(source, time, channels, slot, cycle, false, 254, 1)
}

// Bits 3 to 1: syntax error, content error, boundary violation.
#[tactic(auto, unfolding(crate::specs::Report::error_bits))]
fn error_bits(bits: u32) -> bool
    ensures { result ≡ error_bits bits }
{
    (bits <= 15) & (bits & 1 == 0)
}

// An error on channels of FlexRay that belongs to no frame.
#[tactic(auto, unfolding(crate::specs::Report::error_report))]
pub fn error(source: u64, time: Time, channels: u32, bits: u32) -> Report
    ensures { result ≡ error_report source time channels bits }
{
    Report {
        source,
        time,
        ident: Ident::FlexRayError(codec::number::low8(channels as u64)),
        carries: false,
        ranged: codec::ident::channels_ok(channels) & error_bits(bits),
        kept: 241,
        raised: codec::number::low8(bits as u64),
    }
}

// The item counted with a state byte, after a header, exceeds a frame of f bytes.
#[tactic(auto, unfolding(crate::specs::Report::too_big))]
fn too_big(f: usize, r: Report, n: u8) -> bool
    ensures { result ≡ too_big f r n }
{
    let item = Item {
        offset: Ticks(0),
        network: 0,
        state: Some(0),
        ident: r.ident,
        carries: r.carries,
    };
    f < 14 + codec::item::item_len(item, n)
}

// What speaks against the report, with a payload of n bytes, to a frame of at most f bytes: 7, 2, 4, 3, 5, 6, 1, 8.
#[tactic(auto, using(codec::proofs::ItemLaws::most_small), unfolding(crate::specs::Report::report_cause, crate::specs::Filter::same_kind))]
pub fn report_cause(count: usize, f: usize, s: Source, r: Report, n: usize) -> Result<(), Cause>
    ensures { result ≡ report_cause count f s r n }
{
    let ident = r.ident;
    check(codec::time::in_range(r.time), Cause::BadTime)?;
    check(r.source < count as u64, Cause::NoSource)?;
    check(s.kind == codec::ident::kind_of(ident), Cause::OtherKind)?;
    check(s.started, Cause::NotStarted)?;
    check(r.ranged, Cause::OutOfRange)?;
    check(n <= codec::ident::most_of(ident), Cause::PayloadTooLong)?;
    check(
        !crate::filter::filtered(ident) | s.passes(ident),
        Cause::Unmatched,
    )?;
    check(!too_big(f, r, n as u8), Cause::TooBig)
}

// The frame-bound bits written into the current byte.
#[tactic(auto, unfolding(crate::specs::Report::noted))]
fn note(mut s: Source, r: Report) -> Source
    ensures { result ≡ noted s r }
{
    s.state = s.state & r.kept | r.raised;
    s.known |= r.kept < 255;
    s
}

// A raised bit is never left out; a report without a payload is there to tell the state.
fn insists(r: Report) -> bool
    ensures { result ≡ insists r }
{
    (0 < r.raised) | !r.carries
}

#[tactic(auto, unfolding(crate::specs::Report::offer_of))]
pub fn offer(s: Source, r: Report) -> Offer
    ensures { result ≡ offer_of s r }
{
    let n = note(s, r);
    Offer {
        network: s.network,
        ident: r.ident,
        carries: r.carries,
        state: n.state,
        due: n.due() | insists(r),
    }
}

// After the item the frame-bound bits are clear again, and what was shown is remembered.
#[tactic(auto, unfolding(crate::specs::Report::settled, crate::specs::Report::noted, crate::specs::Report::offer_of))]
pub fn settle(s: Source, r: Report) -> Source
    ensures { result ≡ settled s r }
{
    let o = offer(s, r);
    let mut n = note(s, r);
    n.state = o.state & r.kept;
    if o.due {
        n.shown = Some(o.state);
    }
    n.heard = true;
    n
}
