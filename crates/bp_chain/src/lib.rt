//! Tests of single chains and cycles, which share no code with the search.
#![tactic(auto)]

mod claim;
mod counting;
mod places;
mod steps;
mod weighing;

pub use claim::claim_holds;
pub use counting::counted;
pub use steps::Steps;
pub use weighing::weight;
