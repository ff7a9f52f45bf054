//! Knowledge, hints and lemmas over a system of orders, and the laws that say what lemmas prove. No call takes memory.
#![tactic(auto)]

mod laws;

pub use laws::{law_of_lemmas, law_of_systems, law_of_trees};
