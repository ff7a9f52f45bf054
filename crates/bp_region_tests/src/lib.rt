//! Tests of regions: contours, pieces, folds, pictures. They stand in a crate of their own, so that no library is proved again with its tests.
#![tactic(auto)]

#[cfg(test)]
mod contour;
#[cfg(test)]
mod fold;
#[cfg(test)]
mod picture;
#[cfg(test)]
mod pieces;
#[cfg(test)]
mod regions;
