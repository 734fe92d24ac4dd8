// The frame being filled, and the queue behind it: rules 1 to 3, the deadline of rule 6, rules 7 and 8. It knows no bus.
ghost use Rattle.std.specs.Prelude.{◌≡◌, ◌≤◌, length};
ghost use Rattle.framer.specs.Meter.{placed_meter, start_of};
ghost use Rattle.framer.specs.Framer.{empty_framer, closed, begun, laid_out, filled_meter, filled_bytes, add, passed, ready_of, take_of, out_of, failed};

use crate::cause::{Cause, check};
use crate::meter::Meter;
use crate::offer::Offer;
use crate::queue::Queue;
use codec::header::Header;
use codec::item::Item;
use codec::time::{Millis, Time};

#[derive(Clone, Copy)]
pub struct Framer {
    pub meter: Meter,
    // an empty frame is `[0; 1024]` (docs/DECISIONS.md, "Forms that are asked for"); how much of it is filled stands in
    // the meter, so that deciding needs no bytes
    pub bytes: [u8; 1024],
    pub queue: Queue,
}

// What a take comes to. The answer is how long the frame is that was taken.
#[derive(Clone, Copy)]
pub struct Taken {
    pub framer: Framer,
    pub answer: Result<usize, Cause>,
}

#[tactic(auto, unfolding(crate::specs::Framer::empty_framer))]
pub fn empty(size: usize, room: usize, deadline: Millis) -> Framer
    ensures { result ≡ empty_framer size room deadline }
{
    Framer {
        meter: crate::meter::empty_meter(size, room, deadline),
        bytes: [0; 1024],
        queue: crate::queue::empty_queue(),
    }
}

// The header goes first into an empty frame; DataLength follows with each item.
#[tactic(auto, unfolding(crate::specs::Framer::begun, crate::specs::Framer::written, crate::specs::Meter::start_of))]
fn begin(bytes: &mut [u8; 1024], m: Meter, t: Time) -> usize
    ensures { (result ≡ start_of m) × (bytes.new ≡ begun bytes.old m t) }
{
    if m.filled != 0 {
        return m.filled;
    }
    let header = Header {
        sequence: m.sequence,
        time: t,
        length: 0,
    };
    codec::header::write_header(bytes, 0, header);
    14
}

#[tactic(auto, unfolding(crate::specs::Framer::laid_out, crate::specs::Framer::written))]
fn lay(bytes: &mut [u8; 1024], at: usize, item: Item, payload: &[u8], total: usize)
    ensures { bytes.new ≡ laid_out bytes.old at item payload.now total }
{
    codec::item::write_item(bytes, at, item, payload);
    codec::number::put_be(bytes, 12, total as u64, 2);
}

// The bounds are asked for and no type carries them: a caller may hand in any engine value, and 19 answers it.
#[tactic(auto, unfolding(crate::specs::Meter::placed_meter))]
fn placed_meter(mut m: Meter, t: Time, n: usize) -> Meter
    requires filled_bound { m.filled ≤ 1024 }
    requires n_bound { n ≤ 265 }
    ensures { result ≡ placed_meter m t n }
{
    m.lost = false;
    if m.filled != 0 {
        m.filled += n;
        return m;
    }
    m.filled = 14 + n;
    m.time = t;
    m.sequence = std::num::wrapping_add_u8(m.sequence, 1);
    m
}

// The next item behind the last, or behind a header where there is none. The array is lent, so that an item moves no other byte.
fn fill(bytes: &mut [u8; 1024], m: Meter, t: Time, o: Offer, payload: &[u8]) -> Meter
    requires filled_bound { m.filled ≤ 1024 }
    requires bound { 14 ≤ start_of m }
    requires payload_len_bound { length payload.now ≤ 254 }
    ensures { (result ≡ filled_meter m t o (length payload.now)) × (bytes.new ≡ filled_bytes bytes.old m t o payload.now) }
{
    let item = m.next_item(t, o);
    let n = codec::item::item_len(item, payload.len() as u8);
    let after = placed_meter(m, t, n);
    let at = begin(bytes, m, t);
    lay(bytes, at, item, payload, after.filled - 14);
    after
}

impl Framer {
    fn close(mut self) -> Framer
        requires { self.meter.filled ≤ 1024 }
        ensures { result ≡ closed self }
    {
        let m = self.meter;
        let bytes = self.bytes;
        self.meter = m.closed();
        self.bytes = [0; 1024];
        if m.waiting < m.room {
            self.queue = self.queue.put(m.slot(), &bytes[..m.filled]);
        }
        self
    }

    // Closes the frame if the item asks for it, then adds the item.
    pub fn add(mut self, t: Time, o: Offer, payload: &[u8]) -> Framer
        ensures { result ≡ add self t o payload.now }
    {
        let m = self.meter;
        if !m.sound() {
            return self;
        }
        let n = payload.len();
        if 254 < n {
            return self;
        }
        if m.closes(t, o, n as u8) {
            let mut next = self.close();
            next.meter = fill(&mut next.bytes, next.meter, t, o, payload);
            return next;
        }
        self.meter = fill(&mut self.bytes, m, t, o, payload);
        self
    }

    // Closes the frame if its deadline has passed.
    pub fn pass(self, t: Time) -> Framer
        ensures { result ≡ passed self t }
    {
        let m = self.meter;
        if !m.sound() {
            return self;
        }
        if m.filled == 0 {
            return self;
        }
        if codec::time::overdue(m.time, t, m.deadline) {
            return self.close();
        }
        self
    }

    // 19, 13, 12; else how long the oldest waiting frame is.
    #[tactic(auto, unfolding(crate::specs::Framer::ready_of))]
    fn ready(self, room: usize) -> Result<usize, Cause>
        ensures { result ≡ ready_of self room }
    {
        let m = self.meter;
        check(m.sound(), Cause::Unsound)?;
        check(m.waiting != 0, Cause::NothingWaits)?;
        let n = self.queue.length_at(m.first);
        check(n <= room, Cause::ShortOutput)?;
        Ok(n)
    }

    // The oldest waiting frame goes to the front of out, and later bytes of out stay.
    pub fn take(mut self, out: &mut [u8]) -> Taken
        ensures value { result ≡ take_of self (length out.old) }
        ensures out_after { out.new ≡ out_of self out.old }
    {
        let answer = self.ready(out.len());
        let Ok(n) = answer else {
            return Taken {
                framer: self,
                answer,
            };
        };
        let bytes = &self.queue.slots[self.meter.first].bytes;
        codec::number::put_bytes(out, 0, codec::field::part_at(bytes, 0, n));
        self.meter = self.meter.taken();
        Taken {
            framer: self,
            answer,
        }
    }

    // The frame that is out was not sent; a framer with none out stays as it is.
    #[tactic(auto, unfolding(crate::specs::Framer::failed))]
    pub fn fail(mut self) -> Framer
        ensures { result ≡ failed self }
    {
        self.meter = self.meter.failed();
        self
    }
}
