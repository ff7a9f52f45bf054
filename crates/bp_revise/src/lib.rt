//! An old design revised for new lengths: what of its proof still closes is kept, and the rest is searched.
#![tactic(auto)]

mod apart;
mod keeping;
mod laws;
mod revising;
mod searching;
mod shape;
mod starting;

pub use keeping::keep;
pub use laws::{law_of_keep, one_start};
pub use revising::revise;
pub use shape::are_of_one_shape;
