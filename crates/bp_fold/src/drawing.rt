use bp_base::{Point, Sequence};

/// What an edge is assigned: the sheet's boundary, "B", or nothing, "U".
#[derive(Clone, Copy, Debug, PartialEq, Eq)]
pub enum Letter {
    Boundary,
    Unassigned,
}

/// An edge, by the numbers of its vertices from 0, the smaller one first.
#[derive(Clone, Copy, Debug, PartialEq, Eq)]
pub struct Edge {
    pub from: u64,
    pub to: u64,
}

/// The vertices in grid units, by rising (y, x), the edges by rising numbers, and a letter for each edge.
#[derive(Debug, Drop)]
pub struct Drawing {
    pub vertices: Sequence<Point>,
    pub edges: Sequence<Edge>,
    pub letters: Sequence<Letter>,
}
