//! Least coordinates of a path from scratch: the greatest weights of its chains, what it forces and shows, or a cycle of it.
#![tactic(auto)]

mod cycles;
mod judging;
mod laws;
mod lows;
mod opens;
mod orders;
mod shown;
mod walking;

pub use cycles::begun_at_least;
pub use judging::{Judged, judge_greatest};
pub use laws::{has_least, one_least};
pub use walking::{cycle_on, least};
