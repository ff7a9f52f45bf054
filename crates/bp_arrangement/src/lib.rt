//! Arrangement: every valid placement can be turned, mirrored and swapped into one whose corner lies as it should, and in which
//! the head of each swap is in order. The facts that lemmas speak of, and hints. No call takes memory.
#![tactic(auto)]

mod admissible;
mod fact;
mod laws;
mod sending;

pub use admissible::{first_inadmissible, is_admissible, is_corner};
pub use fact::{Fact, Hint};
pub use laws::{law_of_arrangement, law_of_codes, law_of_denials};
pub use sending::head;
