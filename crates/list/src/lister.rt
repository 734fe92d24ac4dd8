// A recording listed: the lines of each field.
use crate::job::{Job, Words};
use codec::time::Time;
use listing::Cursor;
use recording::field::Field;
use recording::pieces::{Place, Step};

// The body of the field under way, and the start from which positions count.
#[derive(Drop)]
pub(crate) struct Lister {
    body: [u8; 1472],
    start: Option<Time>,
}

impl Lister {
    pub(crate) fn new() -> Lister {
        Lister {
            body: [0; 1472],
            start: None,
        }
    }
}

impl Job for Lister {
    ghost body = { λ job. job.body };

    fn words(&self) -> Words {
        Words {
            name: b"list: ",
            done: b"listed\n",
            reading: "list: reading the recording",
            writing: "list: writing the listing",
        }
    }

    fn next(&mut self, place: Place, piece: &[u8]) -> Step {
        recording::pieces::next(place, &mut self.body, piece)
    }

    fn found(&mut self, field: Field, out: &mut [u8], at: usize) -> usize {
        let cursor = Cursor {
            at,
            start: self.start,
        };
        let next = listing::lines(out, cursor, field, &self.body);
        self.start = next.start;
        next.at
    }

    fn last(&self, place: Place, out: &mut [u8]) -> usize {
        let answer = reader::number(recording::pieces::finish(place));
        listing::end(out, 0, answer, place.skipped).unwrap_or(0)
    }
}
