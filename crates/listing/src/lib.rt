// The lines of a listing: what the program that lists a recording writes of each thing that it finds.
#![tactic(auto)]

mod digit;
mod escape;
mod field;
mod line;
mod word;

pub use escape::note;
pub use field::{Cursor, lines};
pub use line::{end, frame, item, refused, skipped, start};
