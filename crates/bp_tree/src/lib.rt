//! The bytes of a tree, in lines or in the JSON form: reading them with the exact first fault, and writing the canonical text.
#![tactic(auto)]

mod edge;
mod fault;
mod grower;
mod json;
mod laws;
mod leaves;
mod reading;
mod words;
mod writing;

pub use edge::Edge;
pub use fault::{ReadTree, TreeFault, TreeKind};
pub use grower::Grower;
pub use laws::{law_of_one_answer, law_of_texts};
pub use reading::read_tree;
pub use writing::write_tree;
