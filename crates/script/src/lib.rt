// The call script: which call a line names, and how its answer reads.
#![tactic(auto)]

pub mod answer;
pub mod call;
mod long;
pub mod pairs;
mod short;
pub mod tape;
mod word;
