//! One turn of a search: a task is examined.
#![tactic(auto)]

mod children;
mod examining;

pub use examining::{Examiner, Turn};
