// A row of coordinates raised for a new step, leaf by leaf, over the steps that go out from raised leaves.
ghost use Rattle.std.specs.Prelude.{◌≡◌, ◌≢◌, ◌<◌, ◌≤◌, ◌+◌, ◌-◌, ℕ, length, slice_index, MatchOption};
ghost use Rattle.bp_base.specs.Tree.{leaf_count, IsLeaf};
ghost use Rattle.bp_metric.specs.Chains.{HasPairsOf, Places};
ghost use Rattle.bp_metric.specs.Distance.{leaf_dist};
ghost use Rattle.bp_warm.specs.Links.{AreLinks, ordered};
ghost use Rattle.bp_warm.specs.Raising.{IsExact, IsWorking, IsPulled, IsPulledAll, IsRelaxed, IsRowAfter, low_in};

use crate::links::Links;
use crate::work::Work;
use bp_base::{Axis, Step};
use bp_metric::Metric;

// What raising has come to.
#[derive(Clone, Copy)]
pub enum Pulled {
    // The steps are met.
    Met,
    // A leaf that had been raised rose again: go over the raised leaves once more.
    Again,
    // The first leaf would rise: a cycle.
    Cycle,
}

// Raises the coordinate of the leaf `next` by the step that places the moved leaf `leaf` before it. The steps and the axis
// are for the contract alone.
fn pull(
    metric: &Metric,
    _steps: &[Step],
    _axis: Axis,
    old: &[u64],
    lows: &mut [u64],
    work: &mut Work,
    first: u64,
    _second: u64,
    at: usize,
    next: u64,
) -> Pulled
    requires pairs { HasPairsOf (leaf_count metric.now.tree) _steps.now }
    requires exact { IsExact metric.now.tree _steps.now _axis old.now }
    requires working { IsWorking metric.now.tree _steps.now _axis old.now first _second lows.old work.old }
    requires at { at < work.old.count }
    requires count { work.old.count < 33 }
    requires placed { Places _steps.now _axis (slice_index work.old.moved at) next }
    requires next { IsLeaf metric.now.tree next }
    requires small { low_in lows.old (slice_index work.old.moved at) ≤ 4000000 }
    ensures pulled { IsPulled metric.now.tree _steps.now _axis old.now first _second (slice_index work.old.moved at) next lows.old lows.new work.old work.new result }
    ensures few { work.new.count < 33 }
{
    let _leaves = metric.leaves();
    let leaf = work.moved(at);
    let here = next as usize - 1;
    let reached = lows[leaf as usize - 1] + metric.dist(leaf, next);
    if reached <= lows[here] {
        return Pulled::Met;
    }
    if next == first {
        return Pulled::Cycle;
    }
    let before = lows[here];
    lows[here] = reached;
    work.set_by(next, leaf);
    if before == old[here] {
        work.add(next);
        return Pulled::Met;
    }
    Pulled::Again
}

// Raises over each step that goes out from the moved leaf at this place.
fn pull_all(
    metric: &Metric,
    _steps: &[Step],
    _axis: Axis,
    row: &[u64],
    old: &[u64],
    lows: &mut [u64],
    work: &mut Work,
    first: u64,
    _second: u64,
    at: usize,
) -> Pulled
    requires pairs { HasPairsOf (leaf_count metric.now.tree) _steps.now }
    requires exact { IsExact metric.now.tree _steps.now _axis old.now }
    requires working { IsWorking metric.now.tree _steps.now _axis old.now first _second lows.old work.old }
    requires at { at < work.old.count }
    requires count { work.old.count < 33 }
    requires row { IsRowAfter _steps.now _axis (slice_index work.old.moved at) row.now }
    ensures pulled { IsPulledAll metric.now.tree _steps.now _axis old.now first _second at lows.old lows.new work.old work.new result }
    ensures few { work.new.count < 33 }
{
    let _leaves = metric.leaves();
    for k in 0..row.len() {
        let pulled = pull(
            metric, _steps, _axis, old, lows, work, first, _second, at, row[k],
        );
        match pulled {
            Pulled::Met => {}
            Pulled::Again => return Pulled::Again,
            Pulled::Cycle => return Pulled::Cycle,
        }
    }
    Pulled::Met
}

// Raises the row for a step that places `first` before `second` and that it doesn't meet, over all steps that go out from raised
// leaves. None where all steps are met then; else the leaf that would raise `first`, which closes a cycle.
pub fn raise(
    metric: &Metric,
    _steps: &[Step],
    _axis: Axis,
    after: &Links,
    old: &[u64],
    lows: &mut [u64],
    work: &mut Work,
    first: u64,
    second: u64,
) -> Option<u64>
    requires pairs { HasPairsOf (leaf_count metric.now.tree) _steps.now }
    requires exact { IsExact metric.now.tree _steps.now _axis old.now }
    requires links { AreLinks (ordered _axis) _steps.now after.now }
    requires first { IsLeaf metric.now.tree first }
    requires second { IsLeaf metric.now.tree second }
    requires differ { first ≢ second }
    requires same { lows.old ≡ old.now }
    requires more { low_in old.now second < low_in old.now first + leaf_dist metric.now.tree first second }
    ensures raised { MatchOption result (IsWorking metric.now.tree _steps.now _axis old.now first second lows.new work.new × IsRelaxed metric.now.tree _steps.now _axis lows.new work.new.moved work.new.count) (λ last. IsWorking metric.now.tree _steps.now _axis old.now first second lows.new work.new × ((k : ℕ) × (k < work.new.count) × (slice_index work.new.moved k ≡ last)) × Places _steps.now _axis last first) }
    ensures few { work.new.count < 33 }
{
    let _leaves = metric.leaves();
    lows[second as usize - 1] = lows[first as usize - 1] + metric.dist(first, second);
    work.begin(second);
    let mut at = 0;
    while at < work.count() {
        let row = after.row(work.moved(at));
        match pull_all(
            metric, _steps, _axis, row, old, lows, work, first, second, at,
        ) {
            Pulled::Met => at += 1,
            Pulled::Again => at = 0,
            Pulled::Cycle => return Some(work.moved(at)),
        }
    }
    None
}
