/// The most bytes of a name.
pub const MOST_NAME: u64 = 32;

/// The most nodes of a tree.
pub const MOST_NODES: u64 = 64;

/// The most leaves of a tree.
pub const MOST_LEAVES: u64 = 32;

/// The greatest length of an edge, in grid units.
pub const MOST_LENGTH: u64 = 1_000;

/// The most steps of a path: one for each pair of 32 leaves.
pub const MOST_STEPS: u64 = 496;

/// The greatest number in a document.
pub const MOST_NUMBER: u64 = 999_999_999;

/// The greatest width of a strip, in grid units.
pub const MOST_WIDTH: u64 = 999_999;

/// The most hands of a search.
pub const MOST_HANDS: u64 = 16;

/// The greatest budget of a search, in branches examined.
pub const MOST_BUDGET: u64 = 200_000;

/// The most bytes of a tree's text.
pub const MOST_TREE_BYTES: u64 = 65_536;

/// The most bytes of a document.
pub const MOST_DOCUMENT_BYTES: u64 = 134_217_728;

/// The most proof lines of a document, which are the most nodes of a refutation.
pub const MOST_PROOF_LINES: u64 = 800_001;
