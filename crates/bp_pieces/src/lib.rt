//! Pieces and holes of the region of an edge.
#![tactic(auto)]

mod kind;
mod labels;
mod laws;
mod parts;
mod reporting;

pub use laws::law_of_report;
pub use reporting::report;
