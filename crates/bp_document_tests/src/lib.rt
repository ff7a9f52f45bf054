//! Tests of documents: reading, writing, checking, revising, keeping. They stand in a crate of their own, so that no library is proved again with its tests.
#![tactic(auto)]

#[cfg(test)]
mod catalogue;
#[cfg(test)]
mod check;
#[cfg(test)]
mod document;
#[cfg(test)]
mod revise;
