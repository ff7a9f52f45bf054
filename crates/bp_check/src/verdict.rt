/// Why a document is no right design of a tree: the first condition that fails. Leaves are numbered from 1, and
/// nodes from 0 in the order of the proof lines.
#[derive(Clone, Copy, Debug, PartialEq, Eq)]
pub enum Reason {
    /// The trees differ in a parent, a length, a name or their number of nodes.
    TreeDiffers,
    /// The first leaf whose point lies outside the sheet.
    Outside { i: u64 },
    /// The first pair of leaves that are too near.
    TooNear { i: u64, j: u64 },
    /// The floor line doesn't hold.
    BadFloor,
    /// The first split whose pair is no new pair of leaves, or that hasn't a child for each allowed choice.
    BadSplit { node: u64 },
    /// The first proof leaf whose claim doesn't hold on its path.
    BadChain { node: u64 },
    /// The bound is above the floor's side and above what the proof weighs.
    BoundNotShown,
    /// Of the commands that write the outlines of regions alone: a strip has no regions.
    StripSheet,
}

/// Whether a document is a right design of a tree: its points are valid, and no placement has a side, on a strip a height, below its bound.
#[derive(Clone, Copy, Debug, PartialEq, Eq)]
pub enum Verdict {
    Yes,
    /// The first reason why it isn't.
    No(Reason),
}
