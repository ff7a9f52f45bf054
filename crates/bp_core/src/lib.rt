//! What a search has come to when it ends.
#![tactic(auto)]

mod laws;

pub use laws::law_of_left;
