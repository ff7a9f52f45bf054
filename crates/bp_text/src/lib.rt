//! Lines, numbers, and bytes that are written whole. Nothing here takes memory.
#![tactic(auto)]

mod cut;
mod digits;
mod writing;

pub use cut::line;
pub use digits::{long_number, number};
pub use writing::{Digits, put, put_number, put_parts};
