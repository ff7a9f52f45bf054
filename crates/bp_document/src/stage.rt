use crate::room::Room;
use crate::{DocKind, Head, NodeLine};
use bp_base::{Point, Sheet, Tree};
use bp_tree::Grower;

/// All the memory that a document's head takes.
#[derive(Drop)]
pub struct Memory {
    pub grower: Grower,
    pub points: Room<Point>,
    pub leaves: Room<u64>,
}

/// The parts of a head from its tree on.
#[derive(Drop)]
pub struct Parts {
    pub sheet: Sheet,
    pub tree: Tree,
    pub side: u64,
    pub bound: u64,
    pub points: Room<Point>,
    pub leaves: Room<u64>,
}

/// Which line comes next, and what those before it gave.
#[derive(Drop)]
pub enum Stage {
    Version {
        memory: Memory,
    },
    Sheet {
        memory: Memory,
    },
    Edges {
        sheet: Sheet,
        memory: Memory,
    },
    /// An edge of so many, of which some are left.
    Edge {
        sheet: Sheet,
        count: u64,
        left: u64,
        memory: Memory,
    },
    Side {
        parts: Parts,
    },
    Bound {
        parts: Parts,
    },
    /// A point, or where each leaf has one the floor.
    Points {
        parts: Parts,
    },
    Proof {
        parts: Parts,
        m: u64,
        side: u64,
    },
    /// A node line, or where none is left the end.
    Nodes {
        head: Head,
        left: u64,
        most: Option<u64>,
    },
    Behind {
        head: Head,
    },
    /// Some line had a fault. The head is kept, where it was told.
    Broken {
        told: Option<Head>,
    },
}

/// The next stage, and the node where the line was a node's.
#[derive(Drop)]
pub struct Step {
    pub stage: Stage,
    pub node: Option<NodeLine>,
}

/// The fault of a line, and the head where it was told.
#[derive(Drop)]
pub struct Fall {
    pub head: Option<Head>,
    pub kind: DocKind,
}
