//! Regions of a placement on a square: which unit cells an edge reaches, which it owns, and the cuts between which cells are alike.
#![tactic(auto)]

mod ball;
mod cuts;
mod laws;
mod regions;
mod span;

pub use laws::{law_of_cuts, law_of_regions};
pub use regions::Regions;
