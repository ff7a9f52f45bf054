use bp_base::{Floor, Point, Sequence, Sheet, Tree};

/// What stands before a document's node lines. Its proof is the number of them, or None for `proof none`.
#[derive(Drop)]
pub struct Head {
    pub tree: Tree,
    pub side: u64,
    pub bound: u64,
    pub points: Sequence<Point>,
    pub floor: Floor,
    pub proof: Option<u64>,
    pub sheet: Sheet,
}
