//! What a right certificate is: the conditions that a verifier tests, and the first of them that fails.
#![tactic(auto)]

mod fault;
mod found;
mod held;
mod intake;
mod judge;
mod judging;
mod laws;
mod own;
mod streaming;
mod verdict;

pub use fault::{Verified, VerifyFault};
pub use found::Found;
pub use laws::{certifies_without_reason, law_of_certificates, law_of_verdicts, one_reason};
pub use own::{Own, verify_own};
pub use streaming::verify_source;
pub use verdict::{Reason, Verdict};
