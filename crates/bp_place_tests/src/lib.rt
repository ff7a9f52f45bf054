//! Tests of placements: pairs, symmetry, tallies, swaps, openings, floors, the steady answer. They stand in a crate of their own, so that no library is proved again with its tests.
#![tactic(auto)]

#[cfg(test)]
mod arrangement;
#[cfg(test)]
mod floor;
#[cfg(test)]
mod opening;
#[cfg(test)]
mod pairs;
#[cfg(test)]
mod steady;
#[cfg(test)]
mod symmetry;
#[cfg(test)]
mod tally;
