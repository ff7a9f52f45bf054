use bp_base::{Floor, Point, Refutation, Sequence, Sheet, Tree};

/// A design: a tree, the side of its sheet, a lower bound with its floor and proof, and a point for each leaf.
/// On a strip the side is the height. All lengths are in grid units.
#[derive(Drop)]
pub struct Document {
    pub tree: Tree,
    pub side: u64,
    pub bound: u64,
    pub points: Sequence<Point>,
    pub floor: Floor,
    pub proof: Option<Refutation>,
    pub sheet: Sheet,
}
