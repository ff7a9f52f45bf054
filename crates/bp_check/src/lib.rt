//! What a right design is: the conditions that a checker tests, the first of them that fails, and what `design` writes.
#![tactic(auto)]

mod checking;
mod depths;
mod fault;
mod found;
mod held;
mod intake;
mod laws;
mod stack;
mod streaming;
mod verdict;
mod visit;

pub use checking::{are_same, check};
pub use fault::{CheckFault, Streamed};
pub use laws::{
    checks_without_reason, has_reason, law_of_checked_texts, law_of_checks, one_reason,
};
pub use streaming::check_source;
pub use verdict::{Reason, Verdict};
