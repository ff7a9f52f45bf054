// The first leaf of a placement that isn't tied by a mirror.
ghost use Rattle.std.specs.Prelude.{◌≡◌, ◌≢◌, ◌↔◌, ℕ, length, All, IsTrue, IsNone, MatchOption};
ghost use Rattle.bp_base.specs.declared.point.Sheet.TheVariants.{Square};
ghost use Rattle.bp_base.specs.Tree.{leaf_count};
ghost use Rattle.bp_metric.specs.Valid.{Valid};
ghost use Rattle.bp_mirror.specs.Flaws.{ArePlaces, AreTied, IsFirstUntied, IsPlace, IsTied};
ghost use Rattle.bp_mirror.specs.Mirror.{IsMirror};
ghost use Rattle.bp_mirror.specs.Mirrored.{Mirrored, TiesLeaf, TiesPair};

use crate::MirrorKind;
use bp_base::{Pair, Point};
use bp_metric::Metric;

/// The least leaf that breaks its condition on a placement: of a pair that isn't tied the left leaf, of the leaves on the line one that
/// lies beside it. The side and the points are told in the units of the kind, and may be any numbers. It takes no memory.
pub fn first_flaw(
    metric: &Metric,
    kind: MirrorKind,
    pairs: &[Pair],
    side: u64,
    points: &[Point],
) -> Option<u64>
    requires mirror { IsMirror metric.now.tree pairs.now }
    requires points { length points.now ≡ leaf_count metric.now.tree }
    ensures first { MatchOption result (AreTied metric.now.tree kind pairs.now side points.now) (IsFirstUntied metric.now.tree kind pairs.now side points.now) }
    ensures mirrored { (q : ℕ) → Valid metric.now.tree Square q side points.now → (IsNone result ↔ Mirrored metric.now.tree kind pairs.now q side points.now) }
{
    for leaf in 1..metric.leaves() + 1 {
        if !is_tied(kind, pairs, side, points, leaf) {
            return Some(leaf);
        }
    }
    None
}

// Whether a leaf is tied.
fn is_tied(kind: MirrorKind, pairs: &[Pair], side: u64, points: &[Point], leaf: u64) -> bool
    requires leaf { IsPlace (length points.now) leaf }
    requires pairs { All (ArePlaces (length points.now)) pairs.now }
    ensures { IsTrue result ↔ IsTied kind pairs.now side points.now leaf }
{
    ties_pairs_of(kind, pairs, side, points, leaf)
        && (!is_on_axis(pairs, leaf) || ties_leaf(kind, side, points, leaf))
}

// Whether no pair names the leaf.
fn is_on_axis(pairs: &[Pair], leaf: u64) -> bool
    ensures { IsTrue result ↔ All (λ p. (p.i ≢ leaf) × (p.j ≢ leaf)) pairs.now }
{
    pairs.iter().all(|pair| pair.i != leaf && pair.j != leaf)
}

// Whether the pairs of this left leaf are tied.
fn ties_pairs_of(kind: MirrorKind, pairs: &[Pair], side: u64, points: &[Point], left: u64) -> bool
    requires pairs { All (ArePlaces (length points.now)) pairs.now }
    ensures { IsTrue result ↔ All (λ p. p.i ≡ left → TiesPair kind side points.now p) pairs.now }
{
    for pair in pairs {
        if pair.i == left && !ties_pair(kind, side, points, *pair) {
            return false;
        }
    }
    true
}

// Whether the tips of a pair lie as images of one another, the left one not beyond the line.
fn ties_pair(kind: MirrorKind, side: u64, points: &[Point], pair: Pair) -> bool
    requires pair { ArePlaces (length points.now) pair }
    ensures { IsTrue result ↔ TiesPair kind side points.now pair }
{
    let left = points[pair.i as usize - 1];
    let right = points[pair.j as usize - 1];
    match kind {
        MirrorKind::Book => {
            left.x <= side && right.x == side - left.x && left.y == right.y && left.x <= right.x
        }
        MirrorKind::Diagonal => right.x == left.y && right.y == left.x && left.x <= left.y,
    }
}

// Whether the leaf's tip lies on the line.
fn ties_leaf(kind: MirrorKind, side: u64, points: &[Point], leaf: u64) -> bool
    requires leaf { IsPlace (length points.now) leaf }
    ensures { IsTrue result ↔ TiesLeaf kind side points.now leaf }
{
    let tip = points[leaf as usize - 1];
    match kind {
        MirrorKind::Book => tip.x <= side && tip.x == side - tip.x,
        MirrorKind::Diagonal => tip.x == tip.y,
    }
}
