/// The most facts of a lemma.
pub const MOST_FACTS: u64 = 992;

/// The most hints of a lemma.
pub const MOST_HINTS: u64 = 100_000;

/// The most lemmas of a certificate.
pub const MOST_LEMMAS: u64 = 2_000_000;

/// The most swaps of a certificate.
pub const MOST_SWAPS: u64 = 496;

/// The most pairs of a swap.
pub const MOST_SWAP_PAIRS: u64 = 16;

/// The most bytes of a line before its LF.
pub const MOST_LINE_BYTES: u64 = 1_000_000;
