// Whether points are a valid placement, and the first flaw where they aren't.
ghost use Rattle.std.specs.Prelude.{◌≡◌, ◌↔◌, ◌<◌, ◌≤◌, ℕ, length, IsTrue, IsOk, Err, MatchOption};
ghost use Rattle.bp_base.specs.Point.{point_at, gap};
ghost use Rattle.bp_base.specs.Tree.{leaf_count, IsLeaf};
ghost use Rattle.bp_metric.specs.Valid.{IsPair, Lies, Valid};
ghost use Rattle.bp_metric.specs.Distance.{leaf_dist};
ghost use Rattle.bp_metric.specs.Metric.{IsSheet};
ghost use Rattle.bp_pairs.specs.declared.valid.Flaw.{Flaw as AnyFlaw};
ghost use Rattle.bp_pairs.specs.Flaws.{AreFar, AreFirstNear, AreInside, AreTooNear, IsFirstOutside, IsFlaw};

use bp_base::{Pair, Point, Sheet};
use bp_metric::Metric;

/// Why points are no valid placement: the first leaf that lies outside the sheet or, where none does, the first pair of leaves that
/// are nearer than their tree distance.
#[derive(Clone, Copy, Debug, PartialEq, Eq)]
pub enum Flaw {
    Outside { i: u64 },
    Near { i: u64, j: u64 },
}

/// Whether the points are a valid placement at this side, in grid units, and the first flaw where they aren't. Coordinates and side
/// may be any numbers.
pub fn is_valid(metric: &Metric, side: u64, points: &[Point]) -> Result<(), Flaw>
    requires points { length points.now ≡ leaf_count metric.now.tree }
    ensures valid { IsOk result ↔ Valid metric.now.tree metric.now.sheet 1 side points.now }
    ensures flaw { (flaw : AnyFlaw) → ((result ≡ Err flaw) ↔ IsFlaw metric.now.tree metric.now.sheet side points.now flaw) }
{
    if let Some(i) = first_outside(metric, side, points) {
        return Err(Flaw::Outside { i });
    }
    if let Some(pair) = first_near(metric, points) {
        return Err(Flaw::Near {
            i: pair.i,
            j: pair.j,
        });
    }
    Ok(())
}

// The first leaf outside the sheet.
fn first_outside(metric: &Metric, side: u64, points: &[Point]) -> Option<u64>
    requires points { length points.now ≡ leaf_count metric.now.tree }
    ensures { MatchOption result (AreInside metric.now.tree metric.now.sheet side points.now) (IsFirstOutside metric.now.tree metric.now.sheet side points.now) }
{
    let sheet = metric.sheet();
    for leaf in 1..metric.leaves() + 1 {
        if !lies_on(sheet, side, points[leaf as usize - 1]) {
            return Some(leaf);
        }
    }
    None
}

fn lies_on(sheet: Sheet, side: u64, point: Point) -> bool
    ensures { IsTrue result ↔ Lies sheet 1 side point }
{
    match sheet {
        Sheet::Square => point.x <= side && point.y <= side,
        Sheet::Strip { width } => point.x <= width && point.y <= side,
    }
}

// The first pair that is too near.
fn first_near(metric: &Metric, points: &[Point]) -> Option<Pair>
    requires points { length points.now ≡ leaf_count metric.now.tree }
    ensures { MatchOption result ((k l : ℕ) → IsPair metric.now.tree k l → AreFar metric.now.tree points.now k l) (λ p. AreFirstNear metric.now.tree points.now p.i p.j) }
{
    for i in 1..metric.leaves() {
        if let Some(j) = first_near_to(metric, points, i) {
            return Some(Pair { i, j });
        }
    }
    None
}

// The first leaf after i that is too near to it.
fn first_near_to(metric: &Metric, points: &[Point], i: u64) -> Option<u64>
    requires points { length points.now ≡ leaf_count metric.now.tree }
    requires leaf { IsLeaf metric.now.tree i }
    ensures { MatchOption result ((l : ℕ) → IsPair metric.now.tree i l → AreFar metric.now.tree points.now i l) (λ j. AreTooNear metric.now.tree points.now i j × ((l : ℕ) → l < j → AreTooNear metric.now.tree points.now i l → ⊥)) }
{
    for j in i + 1..metric.leaves() + 1 {
        if gap(points[i as usize - 1], points[j as usize - 1]) < metric.dist(i, j) {
            return Some(j);
        }
    }
    None
}

// The distance of two points in the max-norm.
fn gap(p: Point, r: Point) -> u64
    ensures { result ≡ gap p r }
{
    p.x.abs_diff(r.x).max(p.y.abs_diff(r.y))
}
