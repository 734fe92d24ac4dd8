// A microphone's tape: from which start it counts, and on which of its samples a time lies.
#![tactic(auto)]

mod microphone;
mod sample;

pub use microphone::after;
pub use sample::{TooFar, position};
