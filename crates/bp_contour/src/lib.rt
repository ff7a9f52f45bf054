//! Contours of the region of an edge: closed loops of the points at which its boundary turns.
#![tactic(auto)]

mod laws;
mod loops;
mod runs;
mod table;
mod tour;
mod way;

pub use laws::{law_of_after, one_contours};
pub use loops::{Loop, contours};
pub use table::Cells;
