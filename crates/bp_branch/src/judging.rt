// Judging a path against a bound.
ghost use Rattle.std.specs.Prelude.{◌≡◌, ◌++◌, [], ◌∷◌, ◌≤◌, ◌<◌, List, length, IfOk};
ghost use Rattle.bp_base.specs.declared.path.Step.{Step as AnyStep};
ghost use Rattle.bp_base.specs.Limits.{most_number, most_steps};
ghost use Rattle.bp_base.specs.Path.{IsSmallPair};
ghost use Rattle.bp_base.specs.Tree.{leaf_count};
ghost use Rattle.bp_metric.specs.Chains.{HasPairsOf};
ghost use Rattle.bp_metric.specs.Coordinates.{IsLeast};
ghost use Rattle.bp_branch.specs.Outcomes.{HasLeast, IsCyclic, IsOutcome};

use crate::pairs::next_pair;
use bp_base::{Least, NoMemory, Outcome, Path, Step, Walked};
use bp_metric::Metric;
use bp_walks::least;
use std::alloc::Global;

/// The path with one more step. It has room for it, and the step's pair is one of 32 leaves.
pub fn extended(alloc: Global, path: &Path, step: Step) -> Result<Path, NoMemory>
    requires room { length path.now < most_steps }
    requires pair { IsSmallPair step.pair }
    ensures { IfOk result (λ p. p ≡ path.now ++ step ∷ []) }
{
    path.extended(alloc, step)
}

/// What the path with these least coordinates is against the bound, in grid units: closed where it forces at least the bound,
/// solved where it has no next pair, and else split at its next pair.
pub fn judge(metric: &Metric, least: &Least, bound: u64) -> Outcome
    requires least { (path : List AnyStep) × IsLeast metric.now.tree metric.now.sheet path least.now }
    requires bound { bound ≤ most_number }
    ensures outcome { (path : List AnyStep) → IsLeast metric.now.tree metric.now.sheet path least.now → IsOutcome metric.now.tree metric.now.sheet path bound result }
    ensures no_cycle { IsCyclic result → ⊥ }
{
    if least.forced >= bound {
        return Outcome::Closed(least.claim.copy());
    }
    match next_pair(metric, least) {
        None => Outcome::Solved {
            side: least.forced,
            claim: least.claim.copy(),
        },
        Some(pair) => Outcome::Split(pair),
    }
}

/// What the path is against the bound, in grid units, with its least coordinates; cyclic exactly where the path has a cycle,
/// and then without coordinates. Each step of the path is for a pair of leaves.
pub fn examine(
    alloc: Global,
    metric: &Metric,
    path: &Path,
    bound: u64,
) -> Result<(Outcome, Option<Least>), NoMemory>
    requires pairs { HasPairsOf (leaf_count metric.now.tree) path.now }
    requires bound { bound ≤ most_number }
    ensures outcome { IfOk result (λ r. IsOutcome metric.now.tree metric.now.sheet path.now bound r.0) }
    ensures least { IfOk result (λ r. HasLeast metric.now.tree metric.now.sheet path.now r.0 r.1) }
{
    match least(alloc, metric, path)? {
        Walked::Cycle(claim) => Ok((Outcome::Cyclic(claim), None)),
        Walked::Fine(found) => {
            let outcome = judge(metric, &found, bound);
            Ok((outcome, Some(found)))
        }
    }
}
