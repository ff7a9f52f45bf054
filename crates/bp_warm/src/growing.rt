// A row of coordinates for a path with one more step.
ghost use Rattle.std.specs.Prelude.{◌≡◌, ◌≢◌, ◌<◌, ◌≤◌, ◌++◌, ◌∷◌, [], ℕ, MatchOption};
ghost use Rattle.bp_base.specs.Path.{IsPairOf};
ghost use Rattle.bp_base.specs.Tree.{leaf_count, IsLeaf};
ghost use Rattle.bp_metric.specs.Chains.{HasPairsOf};
ghost use Rattle.bp_metric.specs.Coordinates.{IsLoop};
ghost use Rattle.bp_warm.specs.Links.{AreLinks, IsOrder, ordered};
ghost use Rattle.bp_warm.specs.Raising.{IsExact};

use crate::back::loop_back;
use crate::links::Links;
use crate::raising::raise;
use crate::work::Work;
use bp_base::{Axis, Chain, Step};
use bp_metric::Metric;
use std::alloc::Global;

// Raises the row for the step, which places `first` before `second`. Where that closes a cycle, the row is as it was.
pub fn grow(
    alloc: Global,
    metric: &Metric,
    steps: &[Step],
    step: Step,
    axis: Axis,
    after: &Links,
    old: &[u64],
    lows: &mut [u64],
    work: &mut Work,
    first: u64,
    second: u64,
) -> Option<Chain>
    requires pairs { HasPairsOf (leaf_count metric.now.tree) steps.now }
    requires pair { IsPairOf (leaf_count metric.now.tree) step.pair }
    requires order { IsOrder step.pair step.choice axis first second }
    requires exact { IsExact metric.now.tree steps.now axis old.now }
    requires links { AreLinks (ordered axis) steps.now after.now }
    requires first { IsLeaf metric.now.tree first }
    requires second { IsLeaf metric.now.tree second }
    requires differ { first ≢ second }
    requires same { lows.old ≡ old.now }
    ensures none { MatchOption result (IsExact metric.now.tree (steps.now ++ step ∷ []) axis lows.new) (λ chain. IsLoop (leaf_count metric.now.tree) (steps.now ++ step ∷ []) axis chain) }
    ensures some { MatchOption result (1 ≤ 1) (λ chain. lows.new ≡ old.now) }
{
    let _leaves = metric.leaves();
    let reached = lows[first as usize - 1] + metric.dist(first, second);
    if reached <= lows[second as usize - 1] {
        return None;
    }
    match raise(metric, steps, axis, after, old, lows, work, first, second) {
        None => None,
        Some(last) => {
            let chain = loop_back(
                alloc, metric, steps, axis, step, old, lows, work, first, second, last,
            );
            lows.copy_from_slice(old);
            Some(chain)
        }
    }
}
