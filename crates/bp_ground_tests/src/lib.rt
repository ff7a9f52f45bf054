//! Tests of what all else stands on: types, texts, trees, metrics, words. They stand in a crate of their own, so that no library is proved again with its tests.
#![tactic(auto)]

#[cfg(test)]
mod base;
#[cfg(test)]
mod made;
#[cfg(test)]
mod metric;
#[cfg(test)]
mod outside;
#[cfg(test)]
mod samples;
#[cfg(test)]
mod text;
#[cfg(test)]
mod tree;
#[cfg(test)]
mod words;
