use crate::{Claim, Pair, Path, Point, Sequence};

/// A branch that is to be examined, and the side that it has to beat.
#[derive(Drop)]
pub struct Task {
    pub path: Path,
    pub bound: u64,
}

/// What became of a branch that was examined.
#[derive(Drop)]
pub enum RecordKind {
    /// It has a child for each allowed choice of this pair, and these are branches of their own.
    Split { pair: Pair },
    /// It has no children: this claim of its path says which side it needs at least, or that it can't be met.
    Closed { claim: Claim },
}

/// What was found of a branch.
#[derive(Drop)]
pub struct Record {
    pub path: Path,
    pub kind: RecordKind,
    pub ticket: u64,
    /// The bound of its task.
    pub given: u64,
    /// The bound that it was judged against.
    pub bound: u64,
}

/// The least coordinates of a path, the side that it forces, and the chain that is shown for it.
#[derive(Drop)]
pub struct Least {
    pub xs: Sequence<u64>,
    pub ys: Sequence<u64>,
    pub forced: u64,
    pub claim: Claim,
}

/// The least coordinates of a path, or its cycle.
#[derive(Drop)]
pub enum Walked {
    Fine(Least),
    Cycle(Claim),
}

/// What judging a path gives.
#[derive(Drop)]
pub enum Outcome {
    Closed(Claim),
    Cyclic(Claim),
    Solved { side: u64, claim: Claim },
    Split(Pair),
}

/// Why a hand has left.
#[derive(Clone, Copy, Debug, PartialEq, Eq)]
pub enum Left {
    AtFloor,
    Spent,
    Idle,
    Halted,
    NoMemory,
}

/// What a search has come to: all records, all branches left, and the best placement.
#[derive(Drop)]
pub struct Settled {
    pub records: Sequence<Record>,
    pub left: Sequence<Task>,
    pub side: u64,
    pub points: Sequence<Point>,
    pub examined: u64,
}
