// The recording in the pieces that reading gives.
use crate::job::{Job, Words};
use console::Failure;
use recording::pieces::Place;
use std::io;
use std::io::{Read, Write};
use text::draft::Draft;

// The fields that end in this piece, and then nothing is held back: who watches sees what was read.
#[tactic(auto, using(recording::proofs::PlaceLaws::step_most, recording::proofs::PlaceLaws::step_some))]
fn take<W: Write, J: Job>(
    output: &mut W,
    job: &mut J,
    start: Place,
    piece: &[u8],
    out: &mut [u8],
) -> io::Result<Place> {
    let mut place = start;
    let mut rest = piece;
    let mut at = 0;
    while !rest.is_empty() {
        let step = job.next(place, rest);
        if let Some(field) = step.seen {
            at = roomy(output, at, out)?;
            at = job.found(field, out, at);
        }
        place = step.place;
        rest = &rest[step.used..];
    }
    console::write_all(output, text::part::front(out, at))?;
    Ok(place)
}

// What is written of one field is at most 65,538 bytes, so that it fits after as many.
fn roomy<W: Write>(output: &mut W, at: usize, out: &[u8]) -> io::Result<usize> {
    if at <= 65538 {
        return Ok(at);
    }
    console::write_all(output, text::part::front(out, at))?;
    Ok(0)
}

// Every 16 MiB, on standard error. A line that cannot be written there is no failure.
fn tell<E: Write>(errors: &mut E, words: Words, before: u64, read: u64) {
    if before / 16777216 == read / 16777216 {
        return;
    }
    let mut line = Draft::<64>::new();
    line.push(words.name);
    line.decimal(read / 1048576);
    line.push(b" MiB of the recording are ");
    line.push(words.done);
    let _ = console::write_all(errors, line.as_slice());
}

// A proved loop has to end, and nothing says that the input does. So it counts its turns, up to a number that no run
// reaches. `replay` has a loop like it: a shared one would be a function over a closure that lends the buffers, no plainer.
pub(crate) fn run<R: Read, W: Write, E: Write, J: Job>(
    input: &mut R,
    output: &mut W,
    errors: &mut E,
    job: &mut J,
) -> Result<(), Failure> {
    let words = job.words();
    let not_written = |why| Failure {
        what: words.writing,
        why,
    };
    let mut chunk = [0u8; 65536];
    let mut out = [0u8; 131328];
    let mut place = recording::pieces::begin();
    let mut read: u64 = 0;
    for _ in 0..u64::MAX {
        let n = input.read(&mut chunk).map_err(|why| Failure {
            what: words.reading,
            why,
        })?;
        if n == 0 {
            let at = job.last(place, &mut out);
            return console::write_all(output, text::part::front(&out, at)).map_err(not_written);
        }
        place = take(output, job, place, &chunk[..n], &mut out).map_err(not_written)?;
        let before = read;
        read = read.saturating_add(n as u64);
        tell(errors, words, before, read);
    }
    Ok(())
}
