//! The commands: how a run ends, and the run itself.
#![tactic(auto)]

mod answering;
mod certified;
mod checking;
mod command;
mod design;
mod drawing;
mod folding;
mod given;
mod making;
mod outcome;
mod pages;
mod picturing;
mod revising;
mod rewriting;
mod solve;
mod status;
mod tell;
mod text;
mod tree_design;
mod trying;
mod verifying;

pub use bp_words::{Words, words_of};
pub use command::run;
pub use pages::{HELP, VERSION};
pub use status::Status;
pub use tell::put_status;
pub use text::Text;
pub use tree_design::design_tree;
