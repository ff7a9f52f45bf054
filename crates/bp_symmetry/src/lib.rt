//! Settling: every valid placement can be turned, mirrored and sorted into one in which an allowed choice holds for each pair.
//! No call takes memory.
#![tactic(auto)]

mod laws;
mod moves;
mod settling;
mod turn;
mod twins;

pub use laws::{law_of_refutations, law_of_settling, one_settling, refutation_counts};
pub use settling::settle;
