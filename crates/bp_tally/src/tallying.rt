// Counting pairs by how they lie.
ghost use Rattle.std.specs.Prelude.{◌≡◌, ◌<◌, ◌≤◌, ◌+◌, ◌&&◌, length, All};
ghost use Rattle.bp_base.specs.Limits.{most_number};
ghost use Rattle.bp_base.specs.Path.{IsPairOf};
ghost use Rattle.bp_base.specs.Point.{IsSmallPoint};
ghost use Rattle.bp_base.specs.Tree.{leaf_count};
ghost use Rattle.bp_metric.specs.Valid.{Valid};
ghost use Rattle.bp_tally.specs.Pairs.{AreSettledCounts, first_held, is_held, pairs_of, tally_of, with_choice};

use bp_base::{Choice, Pair, Point, Sequence};
use bp_metric::Metric;
use bp_pairs::{allowed, holds};
use bp_symmetry::settle;

/// How many pairs lie by each choice.
#[derive(Clone, Copy, Debug, PartialEq, Eq)]
pub struct Counts {
    pub left: u64,
    pub right: u64,
    pub below: u64,
    pub above: u64,
}

/// The tally of what settling makes of the points, which are valid at this side, in grid units.
pub fn settled_tally(metric: &Metric, side: u64, points: Sequence<Point>) -> Counts
    requires side { side ≤ most_number }
    requires valid { Valid metric.now.tree metric.now.sheet 1 side points }
    ensures { AreSettledCounts metric.now.tree metric.now.sheet side points result }
{
    let mut settled = points.into_vec();
    settle(metric, side, settled.as_mut_slice());
    tally(metric, settled.as_slice())
}

/// Counts each pair of leaves once, under the first choice that it allows and that holds for its points. A pair for which no allowed
/// choice holds isn't counted; in a settled placement there is none.
pub fn tally(metric: &Metric, points: &[Point]) -> Counts
    requires points { length points.now ≡ leaf_count metric.now.tree }
    requires small { All IsSmallPoint points.now }
    ensures { result ≡ tally_of metric.now.tree metric.now.sheet points.now (pairs_of (leaf_count metric.now.tree)) }
{
    let mut tally = Counts {
        left: 0,
        right: 0,
        below: 0,
        above: 0,
    };
    for before in 0..metric.leaves() {
        tally.add_leaf(metric, points, before);
    }
    tally
}

impl Counts {
    // Counts the pairs of the leaf behind so many others with each of those.
    fn add_leaf(&mut self, metric: &Metric, points: &[Point], before: u64)
        requires points { length points.now ≡ leaf_count metric.now.tree }
        requires small { All IsSmallPoint points.now }
        requires leaf { before < leaf_count metric.now.tree }
        requires tally { self.old ≡ tally_of metric.now.tree metric.now.sheet points.now (pairs_of before) }
        ensures { self.new ≡ tally_of metric.now.tree metric.now.sheet points.now (pairs_of (before + 1)) }
    {
        let _leaves = metric.leaves();
        for other in 0..before {
            let pair = Pair {
                i: other + 1,
                j: before + 1,
            };
            self.add(first_held(metric, points, pair));
        }
    }

    // Counts a pair that lies so.
    fn add(&mut self, choice: Option<Choice>)
        requires left { self.old.left < 2000 }
        requires right { self.old.right < 2000 }
        requires below { self.old.below < 2000 }
        requires above { self.old.above < 2000 }
        ensures { self.new ≡ with_choice choice self.old }
    {
        match choice {
            Some(Choice::Left) => self.left += 1,
            Some(Choice::Right) => self.right += 1,
            Some(Choice::Below) => self.below += 1,
            Some(Choice::Above) => self.above += 1,
            None => {}
        }
    }
}

// The first choice that the pair allows and that holds for its points.
fn first_held(metric: &Metric, points: &[Point], pair: Pair) -> Option<Choice>
    requires points { length points.now ≡ leaf_count metric.now.tree }
    requires small { All IsSmallPoint points.now }
    requires pair { IsPairOf (leaf_count metric.now.tree) pair }
    ensures { result ≡ first_held metric.now.tree metric.now.sheet points.now pair }
{
    let set = allowed(metric, pair);
    if lies(metric, points, pair, set.left, Choice::Left) {
        return Some(Choice::Left);
    }
    if lies(metric, points, pair, set.right, Choice::Right) {
        return Some(Choice::Right);
    }
    if lies(metric, points, pair, set.below, Choice::Below) {
        return Some(Choice::Below);
    }
    if lies(metric, points, pair, set.above, Choice::Above) {
        return Some(Choice::Above);
    }
    None
}

// Whether the choice is allowed and holds for the pair's points.
fn lies(metric: &Metric, points: &[Point], pair: Pair, allowed: bool, choice: Choice) -> bool
    requires points { length points.now ≡ leaf_count metric.now.tree }
    requires small { All IsSmallPoint points.now }
    requires pair { IsPairOf (leaf_count metric.now.tree) pair }
    ensures { result ≡ (allowed && is_held metric.now.tree points.now pair choice) }
{
    allowed && is_held(metric, points, pair, choice)
}

fn is_held(metric: &Metric, points: &[Point], pair: Pair, choice: Choice) -> bool
    requires points { length points.now ≡ leaf_count metric.now.tree }
    requires small { All IsSmallPoint points.now }
    requires pair { IsPairOf (leaf_count metric.now.tree) pair }
    ensures { result ≡ is_held metric.now.tree points.now pair choice }
{
    holds(metric, points, pair, choice)
}
