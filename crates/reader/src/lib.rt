// The reader: judges a whole frame before it hands anything out, then yields header, items and payloads.
#![tactic(auto)]

mod answer;
mod copy;
mod frame;
mod items;
mod place;

pub use answer::{
    judged_header, judged_number, number, rewritten_length, rewritten_number, stepped_number,
};
pub use copy::{RewriteError, rewrite};
pub use frame::judge;
pub use items::Items;
pub use place::{Stepped, item_at, payload, payload_at, step};
