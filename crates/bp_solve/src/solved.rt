use bp_base::Sequence;
use bp_certificate::Certificate;

/// Why a run has ended.
#[derive(Clone, Copy, Debug, PartialEq, Eq)]
pub enum Ending {
    /// The bound is the side.
    Met,
    /// As many lemmas were learned as the budget says.
    Spent,
    /// A certificate with the lemmas would be too long to be read. It has none.
    TooLong,
    /// The checker refused the lemmas. The certificate has none.
    Refused,
}

/// A certificate with its text, how many lemmas were learned for it in all that was tried, and why there weren't more.
#[derive(Drop)]
pub struct Solved {
    pub certificate: Certificate,
    pub text: Sequence<u8>,
    pub conflicts: u64,
    pub ending: Ending,
}
