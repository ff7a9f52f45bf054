//! Trees for tests, made by the generator.
#![tactic(auto)]

mod growth;
mod laws;
mod made;

pub use laws::law_of_made;
pub use made::made_tree;
