// Engine values that a caller might hand in, each with one counter out of its range.
use codec::time::{Millis, Time};
use mirror::engine::Engine;

// In the middle of its work, so that no call is refused for want of a source.
fn working() -> Engine {
    let e = mirror::engine::fresh();
    let a = e.setup(64, 2, 10, &[1, 5, 2, 6, 3, 7]).engine;
    let b = a.start(0).engine;
    let d = b.can_range(0, 0, 4294967295).engine;
    d.can(0, Time { sec: 16, nano: 0 }, 291, b"\x01\x02").engine
}

// What is written over a counter, or over the header's time.
#[derive(Clone, Copy)]
pub(crate) enum Breach {
    Nothing,
    Sources(usize),
    Size(usize),
    Room(usize),
    Deadline(Millis),
    Filled(usize),
    Header(Time),
    First(usize),
    Waiting(usize),
}

const LATE: Time = Time {
    sec: 281474976710656,
    nano: 0,
};

const LONG: Time = Time {
    sec: 0,
    nano: 1000000000,
};

// Each with its name, in the order of the lines.
pub(crate) const ALL: [(&'static [u8], Breach); 14] = [
    (b"sound", Breach::Nothing),
    (b"nine sources", Breach::Sources(9)),
    (b"frame size 31", Breach::Size(31)),
    (b"frame size 1025", Breach::Size(1025)),
    (b"queue room 0", Breach::Room(0)),
    (b"queue room 9", Breach::Room(9)),
    (b"deadline 656", Breach::Deadline(Millis(656))),
    (b"filled past the frame size", Breach::Filled(65)),
    (b"filled within the header", Breach::Filled(13)),
    (b"filled past any array", Breach::Filled(usize::MAX)),
    (b"header second 281474976710656", Breach::Header(LATE)),
    (b"header nanosecond 1000000000", Breach::Header(LONG)),
    (b"first slot 8", Breach::First(8)),
    (b"more waiting than room", Breach::Waiting(3)),
];

impl Breach {
    pub(crate) fn engine(self) -> Engine {
        let mut e = working();
        match self {
            Breach::Nothing => {}
            Breach::Sources(n) => e.count = n,
            Breach::Size(n) => e.framer.meter.size = n,
            Breach::Room(n) => e.framer.meter.room = n,
            Breach::Deadline(d) => e.framer.meter.deadline = d,
            Breach::Filled(n) => e.framer.meter.filled = n,
            Breach::Header(t) => e.framer.meter.time = t,
            Breach::First(k) => e.framer.meter.first = k,
            Breach::Waiting(n) => e.framer.meter.waiting = n,
        }
        e
    }
}
