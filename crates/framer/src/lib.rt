#![tactic(auto)]

pub mod cause;
pub mod framer;
pub mod meter;
pub mod offer;
pub mod queue;
