//! The replay of lemmas: whether each stands on those before it, and what they prove.
#![tactic(auto)]

mod cell;
mod given;
mod hints;
mod known;
mod lean;
mod packed;
mod reading;
mod relation;
mod replay;
mod root;
mod sets;
mod store;
mod ties;
mod unsure;

pub use replay::Replay;
