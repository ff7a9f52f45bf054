/// The greatest seed.
pub const MOST_SEED: u64 = 4_294_967_295;

/// The most questions that a steady answer may ask.
pub const MOST_STEADY: u64 = 10_000_000;

/// The hands of a search where the words give none.
pub const USUAL_HANDS: u64 = 4;

/// The budget of a search where the words give none, in branches examined.
pub const USUAL_BUDGET: u64 = 50_000;

/// The greatest budget of `solve`, in lemmas learned.
pub const MOST_SOLVE_BUDGET: u64 = 1_000_000;

/// The budget of `solve` where the words give none, in lemmas learned.
pub const USUAL_SOLVE_BUDGET: u64 = 100_000;

/// The fewest leaves of a made tree.
pub const LEAST_MADE: u64 = 2;

/// The most leaves of a made tree.
pub const MOST_MADE: u64 = 16;
