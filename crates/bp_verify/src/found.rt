/// What is found of a certificate's lemmas, once nothing before them is a reason against it.
#[derive(Clone, Copy)]
pub enum Found {
    /// There are none.
    NoLemmas,
    /// The first that doesn't stand.
    WrongLemma { number: u64 },
    /// All stand, and whether the last has no facts.
    Standing { ends: bool },
}
