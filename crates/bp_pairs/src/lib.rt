//! Pairs of leaves, how their tips may lie, and whether a placement is valid. No call takes memory.
#![tactic(auto)]

mod choices;
mod laws;
mod numbers;
mod valid;

pub use choices::{ChoiceSet, allowed, holds};
pub use laws::{has_steady, numbers_rise, one_steady};
pub use numbers::{pair_at, pair_number};
pub use valid::{Flaw, is_valid};
