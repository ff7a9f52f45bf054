//! Judging a branch of the search: what its path forces, the pair that it splits on, and how it is closed.
#![tactic(auto)]

mod judging;
mod laws;
mod order;
mod pairs;
mod placing;

pub use judging::{examine, extended, judge};
pub use laws::{has_next, law_of_branches, law_of_children, law_of_solved, one_next};
pub use order::PairOrder;
pub use pairs::next_pair;
pub use placing::low_points;
