//! Tests of paths: walks, coordinates kept along a path, chains, branches, joining. They stand in a crate of their own, so that no library is proved again with its tests.
#![tactic(auto)]

#[cfg(test)]
mod branch;
#[cfg(test)]
mod chain;
#[cfg(test)]
mod join;
#[cfg(test)]
mod walks;
#[cfg(test)]
mod warm;
