#![tactic(auto)]

pub mod filter;
pub mod report;
pub mod source;
pub mod update;
