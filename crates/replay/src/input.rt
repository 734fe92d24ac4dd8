// The script in chunks, cut into lines.
use crate::job::Job;
use crate::told::Told;
use console::Failure;
use mirror::engine::Engine;
use std::io;
use std::io::Read;

// The line being gathered: its number, and how much of it is held, unless it is too long to hold.
#[derive(Clone, Copy)]
struct Place {
    number: u64,
    held: Option<usize>,
}

// What is kept from turn to turn; the engine starts before setup. The four buffers that main lends go side by side: no
// proof is made of one field of a struct lent as `&` while another is written.
#[derive(Drop)]
struct State {
    engine: Engine,
    place: Place,
}

fn flush<J: Job>(job: &mut J, told: Told, out: &[u8], tape: &[u8]) -> io::Result<Told> {
    job.write(
        text::part::front(tape, told.taped),
        text::part::front(out, told.at),
    )?;
    Ok(crate::told::first(told.engine))
}

// An answer is at most 140,004 bytes, and a field 1,475, so that one more of each fits after these.
fn roomy<J: Job>(job: &mut J, told: Told, out: &[u8], tape: &[u8]) -> io::Result<Told> {
    if (told.at <= 65536) & (told.taped <= 49152) {
        return Ok(told);
    }
    flush(job, told, out, tape)
}

// How much of the line is held with one more part of it. A line that does not fit is judged by its length alone, so
// its rest is not held.
fn gather(line: &mut [u8], part: &[u8], held: Option<usize>) -> Option<usize> {
    codec::number::put_bytes(line, held?, part)
}

fn next(place: Place) -> Place {
    Place {
        number: place.number.saturating_add(1),
        held: Some(0),
    }
}

fn close<J: Job>(
    job: &mut J,
    before: Told,
    line: &[u8],
    frame: &mut [u8],
    tape: &mut [u8],
    out: &mut [u8],
    place: Place,
) -> io::Result<Told> {
    let told = roomy(job, before, out, tape)?;
    let Some(held) = place.held else {
        return Ok(crate::told::unread(told, out, place.number));
    };
    let whole = text::part::front(line, held);
    Ok(job.line(told, whole, frame, tape, out, place.number))
}

// No answer and no field is held back: who watches sees what was read.
fn written<J: Job>(
    job: &mut J,
    told: Told,
    out: &[u8],
    tape: &[u8],
    place: Place,
) -> io::Result<State> {
    let done = flush(job, told, out, tape)?;
    let engine = done.engine;
    Ok(State { engine, place })
}

fn take<J: Job>(
    job: &mut J,
    chunk: &[u8],
    line: &mut [u8],
    frame: &mut [u8],
    tape: &mut [u8],
    out: &mut [u8],
    engine: Engine,
    start: Place,
) -> io::Result<State> {
    let mut place = start;
    let mut told = crate::told::first(engine);
    for piece in chunk.split_inclusive(|b| *b == b'\n') {
        match piece.strip_suffix(b"\n") {
            Some(whole) => {
                place.held = gather(line, whole, place.held);
                told = close(job, told, line, frame, tape, out, place)?;
                place = next(place);
            }
            None => place.held = gather(line, piece, place.held),
        }
    }
    written(job, told, out, tape, place)
}

// A last line needs no line feed; an empty piece after the last line feed is no line.
fn last<J: Job>(
    job: &mut J,
    line: &[u8],
    frame: &mut [u8],
    tape: &mut [u8],
    out: &mut [u8],
    state: State,
) -> io::Result<()> {
    let State { engine, place } = state;
    if let Some(0) = place.held {
        return Ok(());
    }
    let told = close(
        job,
        crate::told::first(engine),
        line,
        frame,
        tape,
        out,
        place,
    )?;
    flush(job, told, out, tape)?;
    Ok(())
}

// Of an empty chunk there is no more to come, and nothing is kept.
fn taken<J: Job>(
    job: &mut J,
    chunk: &[u8],
    line: &mut [u8],
    frame: &mut [u8],
    tape: &mut [u8],
    out: &mut [u8],
    state: State,
) -> io::Result<Option<State>> {
    if chunk.is_empty() {
        last(job, line, frame, tape, out, state)?;
        return Ok(None);
    }
    let State { engine, place } = state;
    let next = take(job, chunk, line, frame, tape, out, engine, place)?;
    Ok(Some(next))
}

fn turn<R: Read, J: Job>(
    input: &mut R,
    job: &mut J,
    line: &mut [u8],
    frame: &mut [u8],
    tape: &mut [u8],
    out: &mut [u8],
    state: State,
) -> Result<Option<State>, Failure> {
    let words = job.words();
    let mut chunk = [0u8; 65536];
    let n = input.read(&mut chunk).map_err(|why| Failure {
        what: words.reading,
        why,
    })?;
    taken(job, &chunk[..n], line, frame, tape, out, state).map_err(|why| Failure {
        what: words.writing,
        why,
    })
}

// A proved loop has to end, and nothing says that the input does. So it counts its turns, up to a number that no run
// reaches. `list` has a loop like it: a shared one would be a function over a closure that lends three buffers, no plainer.
pub(crate) fn run<R: Read, J: Job>(
    input: &mut R,
    job: &mut J,
    line: &mut [u8],
    frame: &mut [u8],
    tape: &mut [u8],
    out: &mut [u8],
) -> Result<(), Failure> {
    let mut state = State {
        engine: mirror::engine::fresh(),
        place: Place {
            number: 1,
            held: Some(0),
        },
    };
    for _ in 0..u64::MAX {
        match turn(input, job, line, frame, tape, out, state)? {
            Some(next) => state = next,
            None => return Ok(()),
        }
    }
    Ok(())
}
