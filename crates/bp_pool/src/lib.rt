//! One last-in first-out deque of tasks for each hand, which the others steal from, without a lock.
#![tactic(auto)]

mod count;
mod deque;
mod gathering;
mod hand;
mod mem;
mod pool;
mod tries;

pub use gathering::{Gathered, gather};
pub use hand::Hand;
pub use mem::MemTries;
pub use pool::open;
pub use tries::{Stolen, Take, Tries, take_from};
