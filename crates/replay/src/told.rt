// What the lines so far made: the engine after them, where the answers end that are not yet written, and where the
// recording.
use crate::engine::Made;
use mirror::engine::Engine;

#[derive(Drop)]
pub(crate) struct Told {
    pub(crate) engine: Engine,
    pub(crate) at: usize,
    pub(crate) taped: usize,
}

// Nothing is held back.
pub(crate) fn first(engine: Engine) -> Told {
    Told {
        engine,
        at: 0,
        taped: 0,
    }
}

// What is put ends where it began where there is no room for it.
fn bad(out: &mut [u8], at: usize, number: u64) -> usize {
    let end = script::answer::bad(out, at, number).unwrap_or(at);
    codec::number::put_bytes(out, end, b"\n").unwrap_or(end)
}

fn end(out: &mut [u8], at: usize, put: Option<usize>, number: u64) -> usize {
    match put {
        Some(end) => codec::number::put_bytes(out, end, b"\n").unwrap_or(end),
        None => bad(out, at, number),
    }
}

// After a line that was answered from an index on.
pub(crate) fn answered(made: Made, at: usize, taped: usize, out: &mut [u8], number: u64) -> Told {
    let engine = made.engine;
    Told {
        engine,
        at: end(out, at, made.put, number),
        taped,
    }
}

pub(crate) fn unread(told: Told, out: &mut [u8], number: u64) -> Told {
    let engine = told.engine;
    Told {
        engine,
        at: bad(out, told.at, number),
        taped: told.taped,
    }
}
