//! Designs that were made before, kept by tree and budget.
#![tactic(auto)]

mod catalogue;
mod copying;
mod entry;

pub use catalogue::{Added, Catalogue};
pub use copying::copied;
pub use entry::Entry;
