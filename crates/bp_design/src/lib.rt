//! A design of a tree: the opening packing where it meets the floor, or else what a search finds, with its proof.
#![tactic(auto)]

mod designing;
mod replaying;
mod searched;
mod steadying;

pub use designing::design;
pub use replaying::{Counted, counted_replay, replayed};
pub use steadying::{SteadyDesign, steadied};
