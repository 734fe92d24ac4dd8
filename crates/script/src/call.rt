// The call that a line names. Its bytes are read apart, since they go into a buffer.
ghost use Rattle.std.specs.Prelude.{◌≡◌};
ghost use Rattle.script.specs.Call.{counted_of, set_up_of, call_of};

use crate::word::Shape;
use codec::time::Time;

#[derive(Drop)]
pub enum Call {
    New,
    Offline,
    Failed,
    Discards,
    Failures,
    Read,
    Start(u64),
    Stop(u64),
    Take(u64),
    Step(u64),
    Payload(u64),
    Rewrite(u64),
    Remove {
        source: u64,
        number: u64,
    },
    Tick(Time),
    Setup {
        size: u64,
        room: u64,
        deadline: u64,
    },
    Switch {
        size: u64,
        room: u64,
        deadline: u64,
    },
    CanMask {
        source: u64,
        mask: u32,
        code: u32,
    },
    CanRange {
        source: u64,
        lower: u32,
        upper: u32,
    },
    LinMask {
        source: u64,
        mask: u32,
        code: u32,
    },
    LinRange {
        source: u64,
        lower: u32,
        upper: u32,
    },
    Slots {
        source: u64,
        low: u32,
        high: u32,
        low_cycle: u32,
        high_cycle: u32,
        repetition: u32,
    },
    CanState {
        source: u64,
        online: bool,
        passive: bool,
        bus_off: bool,
        counter: u32,
    },
    LinState {
        source: u64,
        online: bool,
    },
    FlexRayState {
        source: u64,
        online: bool,
        bits: u32,
    },
    Can {
        source: u64,
        time: Time,
        key: u32,
    },
    Lin {
        source: u64,
        time: Time,
        pid: u32,
        errors: u32,
    },
    FlexRay {
        source: u64,
        time: Time,
        channels: u32,
        slot: u32,
        cycle: u32,
    },
    Conflict {
        source: u64,
        time: Time,
        channels: u32,
        slot: u32,
        cycle: u32,
    },
    FlexRayError {
        source: u64,
        time: Time,
        channels: u32,
        bits: u32,
    },
}

// The count of words is part of a call: a missing or an extra word makes it none.
#[tactic(auto, unfolding(crate::specs::Call::counted_of))]
fn counted(name: &[u8], line: &[u8]) -> Option<Call>
    ensures { result ≡ counted_of name.now line.now }
{
    match text::line::words(line) {
        1 => crate::short::one_word(name),
        2 => crate::short::two_words(name, line),
        3 => crate::short::three_words(name, line),
        4 => crate::short::four_words(name, line),
        6 => crate::long::six_words(name, line),
        7 => crate::long::seven_words(name, line),
        8 => crate::long::eight_words(name, line),
        _ => None,
    }
}

// A source is two words more; the numbers of the sources are read apart.
#[tactic(auto, unfolding(crate::specs::Call::set_up_of))]
fn set_up(line: &[u8]) -> Option<Call>
    ensures { result ≡ set_up_of line.now }
{
    let n = text::line::words(line);
    if n < 4 {
        return None;
    }
    if n % 2 != 0 {
        return None;
    }
    let Shape {
        size,
        room,
        deadline,
    } = crate::word::shape_at(line)?;
    Some(Call::Setup {
        size,
        room,
        deadline,
    })
}

// Nothing where the line is no call.
#[tactic(auto, unfolding(crate::specs::Call::call_of))]
pub fn parse(line: &[u8]) -> Option<Call>
    ensures { result ≡ call_of line.now }
{
    match text::line::word(line, 0) {
        b"setup" => set_up(line),
        name => counted(name, line),
    }
}
