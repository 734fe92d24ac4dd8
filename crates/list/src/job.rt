// What one of the three programs does with a recording, and what it says.
ghost use Rattle.std.specs.Prelude.{◌≡◌, List, ℕ};
ghost use Rattle.recording.specs.Pieces.{next_of, kept_of};

use recording::field::Field;
use recording::pieces::{Place, Step};

// What it calls itself, what it did, and what it could not do.
#[derive(Clone, Copy)]
pub(crate) struct Words {
    pub(crate) name: &'static [u8],
    pub(crate) done: &'static [u8],
    pub(crate) reading: &'static str,
    pub(crate) writing: &'static str,
}

pub(crate) trait Job {
    // The body of the field under way, as far as it is kept.
    ghost body: { Self → List ℕ };

    fn words(&self) -> Words;

    // Goes on with the rest of a piece, as far as the end of one field or of the piece: what it comes to is what reading a
    // recording in pieces does, whatever the job.
    fn next(&mut self, place: Place, piece: &[u8]) -> Step
        ensures step { result ≡ next_of place (body self.old) piece.now }
        ensures kept { body self.new ≡ kept_of place (body self.old) piece.now };

    // Writes what is said of a field that is complete, from an index on, and answers where that ends.
    fn found(&mut self, field: Field, out: &mut [u8], at: usize) -> usize;

    // Writes what is said when the input is over, and answers where that ends.
    fn last(&self, place: Place, out: &mut [u8]) -> usize;
}
