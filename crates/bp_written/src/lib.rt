//! What a search has come to, as a document.
#![tactic(auto)]

mod weighing;
mod writing;

pub use writing::document_of;
