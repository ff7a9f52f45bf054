//! Tests of `run`, in a crate of their own, so that neither they nor the engine are proved again for the other.
#![tactic(auto)]

#[cfg(test)]
mod tests;
