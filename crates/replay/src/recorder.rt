// A script recorded: the recording is the output, and the answers go to standard error.
use crate::job::{Job, Words};
use crate::record::Taped;
use crate::told::Told;
use std::io;
use std::io::Write;

#[derive(Drop)]
pub(crate) struct Recorder<W, E> {
    pub(crate) output: W,
    pub(crate) errors: E,
}

impl<W: Write, E: Write> Job for Recorder<W, E> {
    fn words(&self) -> Words {
        Words {
            reading: "record: reading",
            writing: "record: writing",
        }
    }

    // A note is what it is before a comment is looked for.
    fn line(
        &self,
        told: Told,
        line: &[u8],
        frame: &mut [u8],
        tape: &mut [u8],
        out: &mut [u8],
        number: u64,
    ) -> Told {
        if script::tape::is_note(line) {
            let Taped { made, held } = crate::record::note(
                told.engine,
                line,
                tape,
                told.taped,
                out,
                told.at,
            );
            return crate::told::answered(made, told.at, held, out, number);
        }
        let kept = text::line::kept(line);
        if kept.is_empty() {
            return told;
        }
        let Taped { made, held } = crate::record::line(
            told.engine,
            kept,
            frame,
            tape,
            told.taped,
            out,
            told.at,
        );
        crate::told::answered(made, told.at, held, out, number)
    }

    // The recording goes first: where that fails no answer is seen of a field that is not there.
    fn write(&mut self, tape: &[u8], answers: &[u8]) -> io::Result<()> {
        console::write_all(&mut self.output, tape)?;
        console::write_all(&mut self.errors, answers)
    }
}
