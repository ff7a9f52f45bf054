//! A picture of a layout: the regions of a placement on a square as an SVG text.
#![tactic(auto)]

mod fill;
mod label;
mod laws;
mod lines;
mod outline;
mod picture;
mod region;
mod tip;

pub use fill::Fill;
pub use label::Label;
pub use laws::{law_of_fills, one_picture};
pub use outline::{Outline, outlines};
pub use picture::write_picture;
