use bp_arrangement::{Fact, Hint};
use bp_base::{Floor, Pair, Point, Sequence, Sheet, Tree};

/// A lemma: its facts don't all hold of one placement below the bound, which its hints show.
#[derive(Drop)]
pub struct Lemma {
    pub facts: Sequence<Fact>,
    pub hints: Sequence<Hint>,
}

/// The lemmas of a certificate with the arrangement that they speak of. The corner is the pair of A and B, or None for `corner none`.
#[derive(Drop)]
pub struct Lemmas {
    pub corner: Option<Pair>,
    pub swaps: Sequence<Sequence<Pair>>,
    pub lemmas: Sequence<Lemma>,
}

/// A design: a tree, the side of its sheet, a lower bound with its floor and lemmas, and a point for each leaf.
/// On a strip the side is the height. All lengths are in grid units. None stands for `lemmas none`.
#[derive(Drop)]
pub struct Certificate {
    pub tree: Tree,
    pub sheet: Sheet,
    pub side: u64,
    pub bound: u64,
    pub points: Sequence<Point>,
    pub floor: Floor,
    pub lemmas: Option<Lemmas>,
}

/// What stands between a certificate's floor and its lemma lines. The count is how many these are.
#[derive(Drop)]
pub struct Plan {
    pub count: u64,
    pub corner: Option<Pair>,
    pub swaps: Sequence<Sequence<Pair>>,
}

/// What stands before a certificate's lemma lines. None stands for `lemmas none`.
#[derive(Drop)]
pub struct CertificateHead {
    pub tree: Tree,
    pub sheet: Sheet,
    pub side: u64,
    pub bound: u64,
    pub points: Sequence<Point>,
    pub floor: Floor,
    pub plan: Option<Plan>,
}
