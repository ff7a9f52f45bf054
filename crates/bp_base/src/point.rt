use crate::Sequence;

/// The sheet: a square, or a strip whose width, in grid units, is kept.
#[derive(Clone, Copy, Debug, PartialEq, Eq)]
pub enum Sheet {
    Square,
    Strip { width: u64 },
}

/// A point of the grid.
#[derive(Clone, Copy, Debug, PartialEq, Eq)]
pub struct Point {
    pub x: u64,
    pub y: u64,
}

#[derive(Clone, Copy, Debug, PartialEq, Eq)]
pub enum Axis {
    X,
    Y,
}

/// A side, on a strip the height, and one point per leaf, in grid units.
#[derive(Debug, Drop)]
pub struct Placement {
    pub side: u64,
    pub points: Sequence<Point>,
}

/// Leaves that are pairwise at least `m` apart, and the side that so many need.
#[derive(Debug, Drop)]
pub struct Floor {
    pub m: u64,
    pub leaves: Sequence<u64>,
    pub side: u64,
}

/// A line of bytes: it goes from `from` to before `to`, and the next line begins at `next`.
#[derive(Clone, Copy, Debug, PartialEq, Eq)]
pub struct Line {
    pub from: u64,
    pub to: u64,
    pub next: u64,
    pub ended: bool,
}

/// A connected part of a region, or a hole: its least cell by (y, x), and its number of cells.
#[derive(Clone, Copy, Debug, PartialEq, Eq)]
pub struct Piece {
    pub at: Point,
    pub area: u64,
}

/// The pieces and the holes of an edge's region.
#[derive(Debug, Drop)]
pub struct Report {
    pub pieces: Sequence<Piece>,
    pub holes: Sequence<Piece>,
}
