//! The creases of a placement's regions as a FOLD text: vertices, edges and their letters.
#![tactic(auto)]

mod corners;
mod creases;
mod drawing;
mod laws;
mod mesh;
mod runs;
mod writing;

pub use creases::draw;
pub use drawing::{Drawing, Edge, Letter};
pub use laws::law_of_drawings;
pub use writing::write_fold;
