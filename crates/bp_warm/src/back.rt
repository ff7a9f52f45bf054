// The cycle that a step closes, back over the leaves that raised one another.
ghost use Rattle.std.specs.Prelude.{◌≡◌, ◌≢◌, ◌<◌, ◌≤◌, ◌++◌, ◌∷◌, [], ℕ, slice_index};
ghost use Rattle.bp_base.specs.Tree.{leaf_count, IsLeaf};
ghost use Rattle.bp_metric.specs.Chains.{HasPairsOf, Places, PlacesBy};
ghost use Rattle.bp_metric.specs.Coordinates.{IsLoop};
ghost use Rattle.bp_warm.specs.Raising.{IsExact, IsWorking};

use crate::work::Work;
use bp_base::{Axis, Chain, Step};
use bp_metric::Metric;
use bp_walks::begun_at_least;
use std::alloc::Global;

// The new step places `first` before `second`, and `last` is a raised leaf that is placed before `first`.
pub fn loop_back(
    alloc: Global,
    metric: &Metric,
    _steps: &[Step],
    _axis: Axis,
    _step: Step,
    _old: &[u64],
    _lows: &[u64],
    work: &Work,
    first: u64,
    second: u64,
    last: u64,
) -> Chain
    requires pairs { HasPairsOf (leaf_count metric.now.tree) _steps.now }
    requires exact { IsExact metric.now.tree _steps.now _axis _old.now }
    requires working { IsWorking metric.now.tree _steps.now _axis _old.now first second _lows.now work.now }
    requires first { IsLeaf metric.now.tree first }
    requires differ { first ≢ second }
    requires moved { (k : ℕ) × (k < work.now.count) × (slice_index work.now.moved k ≡ last) }
    requires placed { Places _steps.now _axis last first }
    requires step { PlacesBy _axis first second _step.pair _step.choice }
    ensures { IsLoop (leaf_count metric.now.tree) (_steps.now ++ _step ∷ []) _axis result }
{
    let _leaves = metric.leaves();
    let mut trail = [0; 33];
    trail[32] = first;
    trail[31] = last;
    let mut at = 31;
    while trail[at] != second {
        let by = work.by(trail[at]);
        at -= 1;
        trail[at] = by;
    }
    begun_at_least(alloc, &mut trail[at..])
}
