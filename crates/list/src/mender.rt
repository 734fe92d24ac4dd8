// A recording mended: its good fields and its unknown ones, as they are written.
use crate::job::{Job, Words};
use recording::field::Field;
use recording::pieces::{Place, Step};

// The body of the field under way, and the whole of it.
#[derive(Drop)]
pub(crate) struct Mender {
    body: [u8; 1472],
    hold: [u8; 65538],
}

impl Mender {
    pub(crate) fn new() -> Mender {
        Mender {
            body: [0; 1472],
            hold: [0; 65538],
        }
    }
}

impl Job for Mender {
    ghost body = { λ job. job.body };

    fn words(&self) -> Words {
        Words {
            name: b"mend: ",
            done: b"mended\n",
            reading: "mend: reading the recording",
            writing: "mend: writing the copy",
        }
    }

    fn next(&mut self, place: Place, piece: &[u8]) -> Step {
        mending::copy::next(place, &mut self.body, &mut self.hold, piece)
    }

    fn found(&mut self, field: Field, out: &mut [u8], at: usize) -> usize {
        let kept = mending::copy::kept(field, &self.hold);
        codec::number::put_bytes(out, at, kept).unwrap_or(at)
    }

    // Nothing: what is left is no field.
    fn last(&self, _place: Place, _out: &mut [u8]) -> usize {
        0
    }
}
