//! Leaf distances, radii and twins of a tree, the sheet, and the definitions that all layers above speak in.
#![tactic(auto)]

mod distance;
mod laws;
mod metric;
mod table;

pub use laws::{leaves_apart, radii_apart, triangle, twins_alike};
pub use metric::Metric;
