//! What the words of a command line ask for.
#![tactic(auto)]

mod options;
mod ranges;
mod words;

pub use ranges::{
    LEAST_MADE, MOST_MADE, MOST_SEED, MOST_SOLVE_BUDGET, MOST_STEADY, USUAL_BUDGET, USUAL_HANDS,
    USUAL_SOLVE_BUDGET,
};
pub use words::{MirrorKind, Words, one_meaning, words_of};
