//! The search worked off one plain stack, on the calling thread.
#![tactic(auto)]

mod beginning;
mod searching;
mod turns;

pub use beginning::begin;
pub use searching::search;
