// A recording checked: a line for each field, and how many of each sort there were.
use crate::job::{Job, Words};
use mending::check::Tally;
use recording::field::Field;
use recording::pieces::{Place, Step};

// The body of the field under way, and how many fields were good and how many bad.
#[derive(Drop)]
pub(crate) struct Checker {
    body: [u8; 1472],
    tally: Tally,
}

impl Checker {
    pub(crate) fn new() -> Checker {
        Checker {
            body: [0; 1472],
            tally: Tally { good: 0, bad: 0 },
        }
    }
}

impl Job for Checker {
    ghost body = { λ job. job.body };

    fn words(&self) -> Words {
        Words {
            name: b"check: ",
            done: b"checked\n",
            reading: "check: reading the recording",
            writing: "check: writing the lines",
        }
    }

    fn next(&mut self, place: Place, piece: &[u8]) -> Step {
        recording::pieces::next(place, &mut self.body, piece)
    }

    fn found(&mut self, field: Field, out: &mut [u8], at: usize) -> usize {
        self.tally = mending::check::count(self.tally, field.found);
        mending::check::line(out, at, field).unwrap_or(at)
    }

    fn last(&self, place: Place, out: &mut [u8]) -> usize {
        let at = mending::check::rest(out, 0, place).unwrap_or(0);
        mending::check::fields(out, at, self.tally, place).unwrap_or(at)
    }
}
