//! Floors: how large a side the leaves of a tree need by counting boxes, and the law that no placement has a smaller one.
#![tactic(auto)]

mod best;
mod holds;
mod law;
mod lists;
mod rows;
mod taken;

pub use best::floor;
pub use holds::floor_holds;
pub use law::{floor_within_opening, has_floor, law_of_floors, one_floor};
