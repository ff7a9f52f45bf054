//! Hands on threads: workers that share a pool of tasks and a board.
#![tactic(auto)]

mod hands;
mod laws;
mod worker;

pub use hands::{hire, run_hands};
pub use laws::law_of_hands;
pub use worker::Worker;
