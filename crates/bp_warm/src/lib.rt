//! Least coordinates of a path, kept while steps are added at its end and taken off.
#![tactic(auto)]

mod back;
mod frames;
mod going;
mod growing;
mod halves;
mod links;
mod orders;
mod raising;
mod showing;
mod warm;
mod work;

pub use warm::Warm;
