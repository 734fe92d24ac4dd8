// What one of the two programs does with a line, where that goes, and what it could not do.
use crate::told::Told;
use std::io;

#[derive(Clone, Copy)]
pub(crate) struct Words {
    pub(crate) reading: &'static str,
    pub(crate) writing: &'static str,
}

pub(crate) trait Job {
    fn words(&self) -> Words;

    // Makes what a whole line says, by its number, and puts its answer behind those before.
    fn line(
        &self,
        told: Told,
        line: &[u8],
        frame: &mut [u8],
        tape: &mut [u8],
        out: &mut [u8],
        number: u64,
    ) -> Told;

    fn write(&mut self, tape: &[u8], answers: &[u8]) -> io::Result<()>;
}
