//! A search that learns a lemma at each dead end.
#![tactic(auto)]

mod activity;
mod analysis;
mod facts;
mod figure;
mod knowledge;
mod layout;
mod learned;
mod lemmas;
mod problem;
mod proof;
mod propagation;
mod reasons;
mod run;
mod search;
mod swaps;
mod watches;

pub use learned::{Learned, learn};
pub use proof::Proof;
