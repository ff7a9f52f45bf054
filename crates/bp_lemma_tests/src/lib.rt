//! Tests of lemmas: replays, certificates, verifying, learning, solving. They stand in a crate of their own, so that no library is proved again with its tests.
#![tactic(auto)]

#[cfg(test)]
mod certificate;
#[cfg(test)]
mod learn;
#[cfg(test)]
mod mirror;
#[cfg(test)]
mod replay;
#[cfg(test)]
mod solve;
#[cfg(test)]
mod verify;
