// Checking a recording and mending it: every field judged good, bad or unknown, and a copy without the bad ones.
#![tactic(auto)]

pub mod check;
pub mod copy;
