//! Trees, paths and lists that tests are built on.
#![tactic(auto)]

mod paths;
mod trees;

pub use paths::{NoSample, leaves_of, path_of, step};
pub use trees::tree;
