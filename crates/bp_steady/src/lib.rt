//! The steady answer: the least list of coordinates of a side, found by searches under bounds on single coordinates.
#![tactic(auto)]

mod answering;
mod bounds;
mod orders;
mod pairs;
mod path;
mod rising;
mod searching;

pub use answering::{Steadied, steady};
