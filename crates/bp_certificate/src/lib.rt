//! Certificates: designs with the lemmas that show their bound, and their text.
#![tactic(auto)]

mod certificate;
mod fact_form;
mod laws;
mod lemma_form;
mod lemma_step;
mod limits;
mod line;
mod mark;
mod opening_step;
mod plan_step;
mod scanner;
mod stage;
mod step;
mod write;

pub use certificate::{Certificate, CertificateHead, Lemma, Lemmas, Plan};
pub use laws::{law_of_long_certificate_lines, law_of_one_certificate};
pub use lemma_form::{read_corner, read_lemma, read_lemma_count, read_swap};
pub use limits::{
    MOST_FACTS, MOST_HINTS, MOST_LEMMAS, MOST_LINE_BYTES, MOST_SWAP_PAIRS, MOST_SWAPS,
};
pub use line::put_lemma;
pub use scanner::CertificateScanner;
pub use write::write_certificate;
