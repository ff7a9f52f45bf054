// Laws of branches: what holds of paths whose pairs were each picked by next.
ghost use Rattle.std.specs.Prelude.{◌≡◌, ◌<◌, ◌≤◌, ◌-◌, ◌*◌, ◌/◌, ℕ, List, Option, None, Contains, length};
ghost use Rattle.bp_base.specs.declared.path.Choice.{Choice};
ghost use Rattle.bp_base.specs.declared.path.Pair.{Pair};
ghost use Rattle.bp_base.specs.declared.path.Step.{Step};
ghost use Rattle.bp_base.specs.declared.record.Least.{Least};
ghost use Rattle.bp_base.specs.Limits.{most_number, most_steps};
ghost use Rattle.bp_base.specs.Tree.{leaf_count};
ghost use Rattle.bp_metric.specs.Choices.{allowed};
ghost use Rattle.bp_metric.specs.Coordinates.{IsLeast};
ghost use Rattle.bp_metric.specs.Next.{IsNext, IsNextPair};
ghost use Rattle.bp_metric.specs.Refutation.{CanSplit, extended};
ghost use Rattle.bp_metric.specs.Stated.{IsInner, IsStatedFor};
ghost use Rattle.bp_metric.specs.Valid.{Valid};
ghost use Rattle.bp_branch.specs.Branches.{IsBranch, IsPicked, low_points};

use bp_metric::Metric;

/// A path whose pairs were each picked by next has no cycle and no pair twice, so it has at most one step for each pair of leaves.
/// Each path of the stated tree is such a path.
pub fn law_of_branches(metric: &Metric)
    ensures picked { (path : List Step) → IsPicked metric.now.tree path → IsBranch metric.now.tree path }
    ensures stated { (u : ℕ) (path : List Step) → IsStatedFor metric.now.tree metric.now.sheet u path → IsPicked metric.now.tree path }
    ensures short { (path : List Step) → IsBranch metric.now.tree path → length path ≤ leaf_count metric.now.tree * (leaf_count metric.now.tree - 1) / 2 }
{
    let _leaves = metric.leaves();
}

/// The next pair of a branch isn't on it, and the path with one more step for it, and an allowed choice, stands in the stated tree
/// where the path does and is an inner node there.
pub fn law_of_children(metric: &Metric)
    ensures new { (path : List Step) (p : Pair) → IsBranch metric.now.tree path → IsNextPair metric.now.tree path p → CanSplit metric.now.tree path p }
    ensures stated { (u : ℕ) (path : List Step) (p : Pair) (c : Choice) → IsStatedFor metric.now.tree metric.now.sheet u path → IsInner metric.now.tree metric.now.sheet u path p → Contains (allowed metric.now.tree metric.now.sheet p) c → IsStatedFor metric.now.tree metric.now.sheet u (extended path p c) }
{
    let _leaves = metric.leaves();
}

/// Where a path has no next pair, its low points are a valid placement at the side that it forces. On a strip whose width its
/// chains on x don't fit, that side is 999,999,999, and nothing is said.
pub fn law_of_solved(metric: &Metric)
    ensures { (path : List Step) (l : Least) → IsLeast metric.now.tree metric.now.sheet path l → IsNext metric.now.tree path None → l.forced < most_number → Valid metric.now.tree metric.now.sheet 1 l.forced (low_points l) }
{
    let _leaves = metric.leaves();
}

/// A path has only one next pair, or none.
pub fn one_next(metric: &Metric)
    ensures { (path : List Step) (p r : Option Pair) → IsNext metric.now.tree path p → IsNext metric.now.tree path r → p ≡ r }
{}

/// A path that has least coordinates has a next pair, or none.
pub fn has_next(metric: &Metric)
    ensures { (path : List Step) (l : Least) → IsLeast metric.now.tree metric.now.sheet path l → (p : Option Pair) × IsNext metric.now.tree path p }
{
    let _leaves = metric.leaves();
}
