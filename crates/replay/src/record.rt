// A line of `record`: a note, a microphone's start or a frame becomes a field of the recording; any other
// is played as a call, and the frame that an accepted take hands out becomes one. The buffers go side by side, each
// with how much of it is held (see input.rt).
use crate::engine::Made;
use mirror::engine::Engine;
use recording::error::RecordError;
use script::tape::Tape;

// How much of the recording is held and not yet written.
#[derive(Drop)]
pub(crate) struct Taped {
    pub(crate) made: Made,
    pub(crate) held: usize,
}

fn answered(
    engine: Engine,
    written: Result<usize, RecordError>,
    held: usize,
    out: &mut [u8],
    at: usize,
) -> Taped {
    let answer = reader::number(written);
    Taped {
        made: crate::engine::answered(engine, script::answer::done(out, at, answer)),
        held: written.unwrap_or(held),
    }
}

pub(crate) fn note(
    engine: Engine,
    line: &[u8],
    tape: &mut [u8],
    held: usize,
    out: &mut [u8],
    at: usize,
) -> Taped {
    let written = recording::write::note(tape, held, script::tape::note_in(line));
    answered(engine, written, held, out, at)
}

fn spelled(
    engine: Engine,
    line: &[u8],
    frame: &mut [u8],
    tape: &mut [u8],
    held: usize,
    out: &mut [u8],
    at: usize,
) -> Taped {
    let Some(n) = text::bytes::read(text::line::word(line, 1), frame) else {
        return Taped {
            made: crate::engine::no_call(engine),
            held,
        };
    };
    let written = recording::write::frame(tape, held, text::part::front(frame, n));
    answered(engine, written, held, out, at)
}

// A frame that the engine hands out is one that the reader accepts, so it is not refused here.
fn played(made: Made, frame: &[u8], tape: &mut [u8], held: usize) -> Taped {
    let Some(taken) = made.taken else {
        return Taped { made, held };
    };
    let written = recording::write::frame(tape, held, text::part::front(frame, taken));
    Taped {
        made,
        held: written.unwrap_or(held),
    }
}

pub(crate) fn line(
    engine: Engine,
    line: &[u8],
    frame: &mut [u8],
    tape: &mut [u8],
    held: usize,
    out: &mut [u8],
    at: usize,
) -> Taped {
    match script::tape::parse(line) {
        Some(Tape::Start(time)) => {
            let written = recording::write::start(tape, held, time);
            answered(engine, written, held, out, at)
        }
        Some(Tape::Frame) => spelled(engine, line, frame, tape, held, out, at),
        None => {
            let made = crate::call::answer(engine, line, frame, out, at);
            played(made, frame, tape, held)
        }
    }
}
