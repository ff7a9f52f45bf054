// The choices of a pair: which one holds for points, and which ones are allowed.
ghost use Rattle.std.specs.Prelude.{◌≡◌, ◌<◌, ◌≤◌, ◌↔◌, length, slice_get, Some, IsTrue, All};
ghost use Rattle.bp_base.specs.Path.{IsPairOf};
ghost use Rattle.bp_base.specs.Tree.{leaf_count};
ghost use Rattle.bp_metric.specs.Choices.{Holds, allowed, are_late_twins};
ghost use Rattle.bp_base.specs.Point.{IsSmallPoint};
ghost use Rattle.bp_pairs.specs.Sets.{choices_of};

use bp_base::{Choice, Pair, Point, Sheet};
use bp_metric::Metric;

/// Some of the four choices. Contracts see their list, in the order Left, Right, Below, Above.
#[derive(Clone, Copy, Debug, PartialEq, Eq)]
pub struct ChoiceSet {
    pub left: bool,
    pub right: bool,
    pub below: bool,
    pub above: bool,
}

impl ChoiceSet {
    /// How many choices the set has.
    pub fn count(&self) -> u64
        ensures { result ≡ length (choices_of self.now) }
    {
        u64::from(self.left) + u64::from(self.right) + u64::from(self.below) + u64::from(self.above)
    }

    /// The choice of number k, from 0 on.
    pub fn at(&self, k: u64) -> Choice
        requires { k < length (choices_of self.now) }
        ensures { slice_get (choices_of self.now) k ≡ Some result }
    {
        let right = u64::from(self.left);
        let below = right + u64::from(self.right);
        let above = below + u64::from(self.below);
        if k < right {
            Choice::Left
        } else if k < below {
            Choice::Right
        } else if k < above {
            Choice::Below
        } else {
            Choice::Above
        }
    }
}

/// Whether the choice holds for the points of the pair's leaves.
pub fn holds(metric: &Metric, points: &[Point], pair: Pair, choice: Choice) -> bool
    requires points { length points.now ≡ leaf_count metric.now.tree }
    requires small { All IsSmallPoint points.now }
    requires pair { IsPairOf (leaf_count metric.now.tree) pair }
    ensures { IsTrue result ↔ Holds metric.now.tree 1 points.now pair choice }
{
    let first = points[pair.i as usize - 1];
    let second = points[pair.j as usize - 1];
    let apart = metric.dist(pair.i, pair.j);
    match choice {
        Choice::Left => first.x + apart <= second.x,
        Choice::Right => second.x + apart <= first.x,
        Choice::Below => first.y + apart <= second.y,
        Choice::Above => second.y + apart <= first.y,
    }
}

/// The choices that a search needs to try for the pair: every valid placement can be turned, mirrored and sorted into one in which
/// one of them holds for each pair.
#[tactic(auto, unfolding(bp_metric::specs::Choices::allowed))]
pub fn allowed(metric: &Metric, pair: Pair) -> ChoiceSet
    requires { IsPairOf (leaf_count metric.now.tree) pair }
    ensures { choices_of result ≡ allowed metric.now.tree metric.now.sheet pair }
{
    let square = matches!(metric.sheet(), Sheet::Square);
    if pair.i == 1 && pair.j == 2 {
        return ChoiceSet {
            left: true,
            right: false,
            below: !square,
            above: false,
        };
    }
    if square && pair.i == 1 && pair.j == 3 {
        return ChoiceSet {
            left: true,
            right: true,
            below: true,
            above: false,
        };
    }
    let free = !are_late_twins(metric, pair);
    ChoiceSet {
        left: true,
        right: free,
        below: true,
        above: free,
    }
}

// Whether the leaves are twins that are both numbered 4 or more.
fn are_late_twins(metric: &Metric, pair: Pair) -> bool
    requires { IsPairOf (leaf_count metric.now.tree) pair }
    ensures { result ≡ are_late_twins metric.now.tree pair }
{
    pair.i >= 4 && pair.j >= 4 && metric.twins(pair.i, pair.j)
}
