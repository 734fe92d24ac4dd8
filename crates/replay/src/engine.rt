// Calls of the engine. Each hands the engine on, since it is kept by value from line to line.
use codec::time::Nanos;
use framer::cause::Cause;
use mirror::engine::{Engine, Outcome};
use script::call::Call;

// Where the answer ends: nothing is put where the line is no call. The frame that a take handed out stands at the front
// of the buffer of frames, and `taken` is its length.
#[derive(Drop)]
pub(crate) struct Made {
    pub(crate) engine: Engine,
    pub(crate) put: Option<usize>,
    pub(crate) taken: Option<usize>,
}

pub(crate) fn answered(engine: Engine, put: Option<usize>) -> Made {
    Made {
        engine,
        put,
        taken: None,
    }
}

pub(crate) fn no_call(engine: Engine) -> Made {
    answered(engine, None)
}

fn fresh(out: &mut [u8], at: usize) -> Made {
    answered(mirror::engine::fresh(), script::answer::done(out, at, 0))
}

pub(crate) fn done(outcome: Outcome<()>, out: &mut [u8], at: usize) -> Made {
    answered(
        outcome.engine,
        script::answer::done(out, at, reader::number(outcome.answer)),
    )
}

// A report or a tick.
pub(crate) fn timed(outcome: Outcome<Nanos>, out: &mut [u8], at: usize) -> Made {
    let back = Nanos(mirror::engine::beside(outcome.answer.map(|b| b.0)));
    answered(
        outcome.engine,
        script::answer::timed(out, at, reader::number(outcome.answer), back),
    )
}

// The number of a filter that was added, or a count that was asked for.
pub(crate) fn numbered(
    engine: Engine,
    answer: Result<u64, Cause>,
    out: &mut [u8],
    at: usize,
) -> Made {
    answered(
        engine,
        script::answer::numbered(
            out,
            at,
            reader::number(answer),
            mirror::engine::beside(answer),
        ),
    )
}

fn take_in(engine: Engine, room: &mut [u8], frame: &mut [u8], out: &mut [u8], at: usize) -> Made {
    let outcome = engine.take(room);
    let length = mirror::engine::beside(outcome.answer.map(|n| n as u64));
    codec::number::put_bytes(frame, 0, text::part::front(room, length as usize));
    Made {
        engine: outcome.engine,
        put: script::answer::taken(out, at, reader::number(outcome.answer), length, room),
        taken: outcome.answer.ok(),
    }
}

fn take(engine: Engine, size: usize, frame: &mut [u8], out: &mut [u8], at: usize) -> Made {
    let mut room = crate::read::untouched::<2048>();
    match room.get_mut(..size) {
        Some(part) => take_in(engine, part, frame, out, at),
        None => no_call(engine),
    }
}

// The numbers stand in an array with their count, since there is no heap.
fn setup(
    engine: Engine,
    size: u64,
    room: u64,
    deadline: u64,
    line: &[u8],
    out: &mut [u8],
    at: usize,
) -> Made {
    let mut numbers = [0u32; 18];
    let Some(n) = script::pairs::read(line, &mut numbers) else {
        return no_call(engine);
    };
    let outcome = engine.setup(size, room, deadline, text::part::front(&numbers, n));
    done(outcome, out, at)
}

// The calls of the whole engine; those of one source are made apart. In parts, since a function stays under 40 lines;
// `_` hands the rest on.
pub(crate) fn make(
    engine: Engine,
    call: Call,
    line: &[u8],
    frame: &mut [u8],
    out: &mut [u8],
    at: usize,
) -> Made {
    match call {
        Call::New => fresh(out, at),
        Call::Offline => done(engine.offline(), out, at),
        Call::Failed => done(engine.failed(), out, at),
        Call::Discards => numbered(engine, engine.discards().map(u64::from), out, at),
        Call::Failures => numbered(engine, engine.failures().map(u64::from), out, at),
        Call::Take(size) => take(engine, size as usize, frame, out, at),
        Call::Tick(time) => timed(engine.tick(time), out, at),
        Call::Setup {
            size,
            room,
            deadline,
        } => setup(engine, size, room, deadline, line, out, at),
        Call::Switch {
            size,
            room,
            deadline,
        } => done(engine.switch(size, room, deadline), out, at),
        _ => crate::source::make(engine, call, out, at),
    }
}
