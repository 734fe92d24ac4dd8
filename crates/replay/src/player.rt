// A script played: its answers are the output.
use crate::job::{Job, Words};
use crate::told::Told;
use std::io;
use std::io::Write;

#[derive(Drop)]
pub(crate) struct Player<W> {
    pub(crate) output: W,
}

impl<W: Write> Job for Player<W> {
    fn words(&self) -> Words {
        Words {
            reading: "replay: reading",
            writing: "replay: writing",
        }
    }

    fn line(
        &self,
        told: Told,
        line: &[u8],
        frame: &mut [u8],
        _tape: &mut [u8],
        out: &mut [u8],
        number: u64,
    ) -> Told {
        let kept = text::line::kept(line);
        if kept.is_empty() {
            return told;
        }
        let made = crate::call::answer(told.engine, kept, frame, out, told.at);
        crate::told::answered(made, told.at, told.taped, out, number)
    }

    fn write(&mut self, _tape: &[u8], answers: &[u8]) -> io::Result<()> {
        console::write_all(&mut self.output, answers)
    }
}
