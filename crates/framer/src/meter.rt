// The framer's numbers: its limits, the frame being filled, what was lost and what waits. Deciding needs nothing else.
ghost use Rattle.std.specs.Prelude.{◌≡◌};
ghost use Rattle.codec.specs.Number.{Below};
ghost use Rattle.framer.specs.Meter.{sound_meter, limits_ok, empty_meter, is_within, ticks_in, back_in, state_shown, item_of, offset_for, back_for, closes_for, slot_of, counted, closed_meter, taken_meter, failed_meter};

use crate::offer::Offer;
use codec::item::Item;
use codec::time::{Elapsed, Millis, Nanos, Ticks, Time};

#[derive(Clone, Copy)]
pub struct Meter {
    // frame size F, queue room Q and deadline D
    pub size: usize,
    pub room: usize,
    pub deadline: Millis,
    // how many bytes the frame being filled has, 0 before its header, and its header time; no Option of
    // both: a caller may hand in any engine value, so the soundness rule asks of both, and an empty frame keeps an old time
    pub filled: usize,
    pub time: Time,
    // the next sequence number
    pub sequence: u8,
    pub lost: bool,
    pub discards: u32,
    // the frame last taken can still be called failed; how many were
    pub out: bool,
    pub failures: u32,
    // the slot of the oldest waiting frame, and how many wait: a ring in fixed memory (docs/DECISIONS.md, "The engine")
    pub first: usize,
    pub waiting: usize,
}

#[tactic(auto, unfolding(crate::specs::Meter::limits_ok))]
pub fn limits_ok(size: u64, room: u64, deadline: u64) -> bool
    ensures { result ≡ limits_ok size room deadline }
{
    (32 <= size) & (size <= 1024) & (1 <= room) & (room <= 8) & (deadline <= 655)
}

#[tactic(auto, unfolding(crate::specs::Meter::empty_meter))]
pub(crate) fn empty_meter(size: usize, room: usize, deadline: Millis) -> Meter
    ensures { result ≡ empty_meter size room deadline }
{
    Meter {
        size,
        room,
        deadline,
        filled: 0,
        time: Time { sec: 0, nano: 0 },
        sequence: 0,
        lost: false,
        discards: 0,
        out: false,
        failures: 0,
        first: 0,
        waiting: 0,
    }
}

fn is_ticks(e: Elapsed) -> bool
    ensures { result ≡ is_within e }
{
    matches!(e, Elapsed::Ticks(_))
}

// No Option: where it is no count of ticks the frame closes first, and the offset is asked of the next one.
fn ticks_in(e: Elapsed) -> Ticks
    ensures { result ≡ ticks_in e }
{
    match e {
        Elapsed::Ticks(t) => t,
        _ => Ticks(0),
    }
}

// 0 where it is not backwards: a distance, and no flag.
fn back_in(e: Elapsed) -> Nanos
    ensures { result ≡ back_in e }
{
    match e {
        Elapsed::Backwards(n) => n,
        _ => Nanos(0),
    }
}

// The state byte is shown where it is due or something was lost, which sets its bit 7.
#[tactic(auto, unfolding(crate::specs::Meter::state_shown))]
fn state_shown(lost: bool, o: Offer) -> Option<u8>
    ensures { result ≡ state_shown lost o }
{
    if lost {
        return Some(o.state | 128);
    }
    o.due.then_some(o.state)
}

#[tactic(auto, unfolding(crate::specs::Meter::item_of))]
fn item_of(lost: bool, offset: Ticks, o: Offer) -> Item
    ensures { result ≡ item_of lost offset o }
{
    Item {
        offset,
        network: o.network,
        state: state_shown(lost, o),
        ident: o.ident,
        carries: o.carries,
    }
}

// One more loss, stopping at the last number that 32 bits hold.
#[tactic(auto, unfolding(crate::specs::Meter::counted))]
fn counted(losses: u32) -> u32
    ensures { result ≡ counted losses }
{
    losses.saturating_add(1)
}

impl Meter {
    // The part of the soundness rule that is the framer's.
    #[tactic(auto, unfolding(crate::specs::Meter::sound_meter))]
    pub fn sound(self) -> bool
        ensures { result ≡ sound_meter self }
    {
        (32 <= self.size)
            & (self.size <= 1024)
            & (1 <= self.room)
            & (self.room <= 8)
            & (self.deadline.0 <= 655)
            & (self.filled <= self.size)
            & ((self.filled == 0) | (14 <= self.filled))
            & codec::time::in_range(self.time)
            & (self.first <= 7)
            & (self.waiting <= self.room)
    }

    // An empty frame takes its header time from its first item.
    #[tactic(auto, unfolding(crate::specs::Meter::offset_for))]
    fn offset_for(self, t: Time) -> Ticks
        ensures { result ≡ offset_for self t }
    {
        if self.filled == 0 {
            return Ticks(0);
        }
        ticks_in(codec::time::measure(self.time, t))
    }

    // How far a clock that reads t stands behind the header time; an empty frame has none to be behind.
    // 0 where it is not behind, and no Option: a distance, and no flag.
    #[tactic(auto, unfolding(crate::specs::Meter::back_for))]
    pub fn back_for(self, t: Time) -> Nanos
        ensures { result ≡ back_for self t }
    {
        if self.filled == 0 {
            return Nanos(0);
        }
        back_in(codec::time::measure(self.time, t))
    }

    // The item that the frame gets at time t, as things stand.
    pub(crate) fn next_item(self, t: Time, o: Offer) -> Item
        ensures { result ≡ item_of self.lost (offset_for self t) o }
    {
        item_of(self.lost, self.offset_for(t), o)
    }

    // Whether the frame closes before an item with n bytes of payload is added.
    pub(crate) fn closes(self, t: Time, o: Offer, n: u8) -> bool
        ensures { result ≡ closes_for self t o n }
    {
        if self.filled == 0 {
            return false;
        }
        if !is_ticks(codec::time::measure(self.time, t)) {
            return true;
        }
        if self.size < self.filled {
            return true;
        }
        let item = item_of(self.lost, Ticks(0), o);
        self.size - self.filled < codec::item::item_len(item, n)
    }

    // The slot behind the last waiting frame; eight slots in a ring.
    #[tactic(auto, unfolding(crate::specs::Meter::slot_of))]
    pub(crate) fn slot(self) -> usize
        ensures { Below (slot_of self) 8 result }
    {
        (self.first % 8 + self.waiting % 8) % 8
    }

    // What closing the frame leaves of the numbers: it waits if there is room, else it is lost.
    #[tactic(auto, unfolding(crate::specs::Meter::closed_meter))]
    pub(crate) fn closed(mut self) -> Meter
        ensures { result ≡ closed_meter self }
    {
        self.filled = 0;
        if self.waiting < self.room {
            self.waiting += 1;
            return self;
        }
        self.lost = true;
        self.discards = counted(self.discards);
        self
    }

    // The next frame in the ring is the oldest; asked only where one waits.
    #[tactic(auto, unfolding(crate::specs::Meter::taken_meter))]
    pub(crate) fn taken(mut self) -> Meter
        ensures { result ≡ taken_meter self }
    {
        if self.waiting == 0 {
            return self;
        }
        self.first = (self.first % 8 + 1) % 8;
        self.waiting -= 1;
        self.out = true;
        self
    }

    // The frame that is out is lost too; where none is out, nothing is.
    pub(crate) fn failed(mut self) -> Meter
        ensures { result ≡ failed_meter self }
    {
        if !self.out {
            return self;
        }
        self.lost = true;
        self.out = false;
        self.failures = counted(self.failures);
        self
    }
}
