// A path without a cycle has one value of least coordinates.
ghost use Rattle.std.specs.Prelude.{◌≡◌, List};
ghost use Rattle.bp_base.specs.declared.path.Step.{Step};
ghost use Rattle.bp_base.specs.declared.record.Least.{Least};
ghost use Rattle.bp_base.specs.Tree.{leaf_count};
ghost use Rattle.bp_metric.specs.Chains.{HasCycle, HasPairsOf};
ghost use Rattle.bp_metric.specs.Coordinates.{IsLeast};

use bp_metric::Metric;

/// The least coordinates of a path, what it forces and what is shown for it are one value: whatever gives them gives the same.
pub fn one_least(metric: &Metric)
    ensures { (path : List Step) (l m : Least) → HasPairsOf (leaf_count metric.now.tree) path → IsLeast metric.now.tree metric.now.sheet path l → IsLeast metric.now.tree metric.now.sheet path m → l ≡ m }
{
    let _leaves = metric.leaves();
}

/// Each path of pairs of leaves without a cycle has least coordinates, a side that it forces and a chain that is shown for it.
pub fn has_least(metric: &Metric)
    ensures { (path : List Step) → HasPairsOf (leaf_count metric.now.tree) path → (HasCycle (leaf_count metric.now.tree) path → ⊥) → (l : Least) × IsLeast metric.now.tree metric.now.sheet path l }
{
    let _leaves = metric.leaves();
}
