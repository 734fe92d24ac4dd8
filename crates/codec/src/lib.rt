// The wire of the serialized mirroring protocol (AUTOSAR Bus Mirroring R22-11, section 7.4.2):
// times, big-endian numbers, the header, the item. Everything above speaks through these.
#![tactic(auto)]

pub mod field;
pub mod header;
pub mod ident;
pub mod item;
pub mod number;
pub mod refusal;
pub mod time;
