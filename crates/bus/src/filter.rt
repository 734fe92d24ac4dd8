// Filters: which frames of a source are mirrored, and how one is added.
ghost use Rattle.std.specs.Prelude.{◌≡◌, false, ◌&&◌, ℕ, ◌%◌, leb};
ghost use Rattle.codec.specs.declared.ident.Ident.TheVariants as Ident;
ghost use Rattle.bus.specs.Source.{passes};
ghost use Rattle.bus.specs.Filter.{keyed, slotted, matches, filtered, is_free, mask_of, range_of, can_mask, can_range, lin_mask, lin_range, slots_of, cycled};

use codec::ident::{Ident, Kind};

// What stands in one of a source's eight places. A free place is a filter that matches nothing, and no Option: whoever asks
// whether a filter matches, or adds one, may do so of a free one (`filter_matches`, `add_filter`).
#[derive(Clone, Copy)]
pub enum Filter {
    Free,
    Mask {
        mask: u32,
        code: u32,
    },
    Range {
        lower: u32,
        upper: u32,
    },
    Slots {
        low: u16,
        high: u16,
        low_cycle: u8,
        high_cycle: u8,
        repetition: u8,
    },
}

// A filter to be added, and whether its numbers are in range; no Result, since 2 and 4 go before that cause.
#[derive(Clone, Copy)]
pub struct Addition {
    pub source: u64,
    pub kind: Kind,
    pub good: bool,
    pub filter: Filter,
}

// A number in range is its own remainder; one that is not is refused. Here and not beside the codec's `low8`, since the
// codec has no number of 16 bits to cut.
pub fn low16(x: u32) -> u16
    ensures { result ≡ x % 65536 }
{
    (x & 65535) as u16
}

// A short cut: where it says no, no key matches, so that a free place costs one test. This and one more test of the
// form cost less than one test of all four, which is a jump through a table.
fn asks_for_key(f: Filter) -> bool
    ensures { result ≡ false → (key : ℕ) → keyed f key ≡ false }
{
    matches!(f, Filter::Mask { .. } | Filter::Range { .. })
}

fn within(low: u32, high: u32, x: u32) -> bool
    ensures { result ≡ (leb low x && leb x high) }
{
    low <= x && x <= high
}

fn key_matches(f: Filter, key: u32) -> bool
    ensures { result ≡ keyed f key }
{
    if !asks_for_key(f) {
        return false;
    }
    match f {
        Filter::Mask { mask, code } => key & mask == code,
        Filter::Range { lower, upper } => within(lower, upper, key),
        _ => false,
    }
}

// A cycle is counted from the start of its repetition; a repetition of 0 has none.
#[tactic(auto, unfolding(crate::specs::Filter::cycled))]
fn cycle_matches(cycle: u8, low: u8, high: u8, repetition: u8) -> bool
    ensures { result ≡ cycled cycle low high repetition }
{
    if repetition == 0 {
        return false;
    }
    let c = cycle % repetition;
    within(u32::from(low), u32::from(high), u32::from(c))
}

// The cycle comes last: its remainder is a division.
fn slot_matches(f: Filter, slot: u16, cycle: u8) -> bool
    ensures { result ≡ slotted f slot cycle }
{
    match f {
        Filter::Slots {
            low,
            high,
            low_cycle,
            high_cycle,
            repetition,
        } => {
            within(u32::from(low), u32::from(high), u32::from(slot))
                && cycle_matches(cycle, low_cycle, high_cycle, repetition)
        }
        _ => false,
    }
}

// Whether one of a source's places matches a key: that of a CAN id, or a LIN id's, which filters treat alike.
pub(crate) fn key_passes(places: [Filter; 8], key: u32) -> bool
    ensures { result ≡ passes places (Ident.Can key) }
{
    places.iter().any(|filter| key_matches(*filter, key))
}

// Whether one of a source's places matches a slot and a cycle, on whatever channels.
pub(crate) fn slot_passes(places: [Filter; 8], slot: u16, cycle: u8) -> bool
    ensures { result ≡ passes places (Ident.FlexRay 0 slot cycle) }
{
    places
        .iter()
        .any(|filter| slot_matches(*filter, slot, cycle))
}

// One filter's answer. A walk over places asks the functions above, since it knows the kind of id.
pub fn filter_matches(f: Filter, id: Ident) -> bool
    ensures { result ≡ matches f id }
{
    match id {
        Ident::Can(key) => key_matches(f, key),
        Ident::Lin(pid) => key_matches(f, u32::from(pid & 63)),
        Ident::FlexRay { slot, cycle, .. } => slot_matches(f, slot, cycle),
        Ident::FlexRayError(_) | Ident::Bare(_) => false,
    }
}

// An error without a frame has no id that a filter could be asked for.
pub fn filtered(id: Ident) -> bool
    ensures { result ≡ filtered id }
{
    !matches!(id, Ident::FlexRayError(_))
}

pub fn is_free(f: Filter) -> bool
    ensures { result ≡ is_free f }
{
    matches!(f, Filter::Free)
}

// A filter of keys, each at most so large.
#[tactic(auto, unfolding(crate::specs::Filter::mask_of))]
fn mask_up_to(source: u64, kind: Kind, most: u32, mask: u32, code: u32) -> Addition
    ensures { result ≡ mask_of source kind most mask code }
{
    Addition {
        source,
        kind,
        good: (mask <= most) & (code <= most),
        filter: Filter::Mask { mask, code },
    }
}

#[tactic(auto, unfolding(crate::specs::Filter::range_of))]
fn range_up_to(source: u64, kind: Kind, most: u32, lower: u32, upper: u32) -> Addition
    ensures { result ≡ range_of source kind most lower upper }
{
    Addition {
        source,
        kind,
        good: (lower <= upper) & (upper <= most),
        filter: Filter::Range { lower, upper },
    }
}

#[tactic(auto, unfolding(crate::specs::Filter::can_mask, crate::specs::Filter::mask_of))]
pub fn can_mask(source: u64, mask: u32, code: u32) -> Addition
    ensures { result ≡ can_mask source mask code }
{
    mask_up_to(source, Kind::Can, u32::MAX, mask, code)
}

#[tactic(auto, unfolding(crate::specs::Filter::can_range, crate::specs::Filter::range_of))]
pub fn can_range(source: u64, lower: u32, upper: u32) -> Addition
    ensures { result ≡ can_range source lower upper }
{
    range_up_to(source, Kind::Can, u32::MAX, lower, upper)
}

#[tactic(auto, unfolding(crate::specs::Filter::lin_mask, crate::specs::Filter::mask_of))]
pub fn lin_mask(source: u64, mask: u32, code: u32) -> Addition
    ensures { result ≡ lin_mask source mask code }
{
    mask_up_to(source, Kind::Lin, 63, mask, code)
}

#[tactic(auto, unfolding(crate::specs::Filter::lin_range, crate::specs::Filter::range_of))]
pub fn lin_range(source: u64, lower: u32, upper: u32) -> Addition
    ensures { result ≡ lin_range source lower upper }
{
    range_up_to(source, Kind::Lin, 63, lower, upper)
}

#[tactic(auto, unfolding(crate::specs::Filter::slots_of))]
pub fn slots(
    source: u64,
    low: u32,
    high: u32,
    low_cycle: u32,
    high_cycle: u32,
    repetition: u32,
) -> Addition
    ensures { result ≡ slots_of source low high low_cycle high_cycle repetition }
{
    let range = (low <= high) & (high <= 2047);
    let cycles = (low_cycle <= high_cycle) & (high_cycle <= 63);
    Addition {
        source,
        kind: Kind::FlexRay,
        good: range & cycles & (1 <= repetition) & (repetition <= 64),
        filter: Filter::Slots {
            low: low16(low),
            high: low16(high),
            low_cycle: codec::number::low8(u64::from(low_cycle)),
            high_cycle: codec::number::low8(u64::from(high_cycle)),
            repetition: codec::number::low8(u64::from(repetition)),
        },
    }
}
