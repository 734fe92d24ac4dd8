#![tactic(auto)]

pub mod engine;
pub mod failed;
pub mod report;
pub mod setup;
pub mod source;
pub mod take;
pub mod tick;
