// Recordings: fields of tag, length and body in a file. Reads them in pieces cut anywhere, and writes them.
#![tactic(auto)]

pub mod error;
pub mod field;
pub mod pieces;
pub mod tag;
pub mod write;
