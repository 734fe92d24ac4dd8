// The text of a call script: lines, words, numbers and bytes, read and written.
#![tactic(auto)]

pub mod bytes;
pub mod digit;
pub mod draft;
pub mod line;
pub mod number;
pub mod part;
pub mod put;
