//! A metric and a budget to a certificate that is right, by a search that is believed in nothing.
#![tactic(auto)]

mod fitting;
mod ranges;
mod replaying;
mod solved;
mod solving;
mod text;

pub use solved::{Ending, Solved};
pub use solving::solve;
