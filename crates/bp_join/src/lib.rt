//! Records of a search and the tasks that it left, joined to one refutation.
#![tactic(auto)]

mod building;
mod entry;
mod joining;

pub use joining::join;
