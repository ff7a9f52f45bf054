//! Symmetric designs: mirrors of a tree's leaves, and the placements that they tie.
#![tactic(auto)]

mod kind;
mod laws;
mod mirror;
mod untied;

pub use kind::MirrorKind;
pub use laws::{
    law_of_mirror_arrangement, law_of_mirror_lemmas, law_of_mirror_readings, law_of_mirror_systems,
};
pub use mirror::is_mirror;
pub use untied::first_flaw;
