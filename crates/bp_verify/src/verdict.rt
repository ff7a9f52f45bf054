/// Why a certificate is no right design of a tree: the first condition that fails. Leaves, swaps and lemmas are numbered from 1.
#[derive(Clone, Copy, Debug, PartialEq, Eq)]
pub enum Reason {
    TreeDiffers,
    Outside { i: u64 },
    TooNear { i: u64, j: u64 },
    BadFloor,
    /// The corner isn't told, or isn't two different leaves.
    BadCorner,
    /// The swap isn't admissible.
    BadSwap { number: u64 },
    /// The lemma doesn't stand on those before it.
    BadLemma { number: u64 },
    BoundNotShown,
}

#[derive(Clone, Copy, Debug, PartialEq, Eq)]
pub enum Verdict {
    Yes,
    No(Reason),
}
