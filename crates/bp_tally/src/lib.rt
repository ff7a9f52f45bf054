//! How the pairs of leaves lie, counted by choices. No call takes memory.
#![tactic(auto)]

mod laws;
mod tallying;

pub use laws::law_of_pairs;
pub use tallying::{Counts, settled_tally, tally};
