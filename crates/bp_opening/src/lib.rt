//! The opening packing: each leaf in order at the first free point of the sheet.
#![tactic(auto)]

mod first;
mod laws;
mod opening;
mod order;

pub use laws::{has_opening, one_opening, opening_valid};
pub use opening::open;
