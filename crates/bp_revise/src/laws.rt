// Laws of what a revision starts from and keeps.
ghost use Rattle.std.specs.Prelude.{◌≡◌, ◌≤◌, ℕ, List, [], Option};
ghost use Rattle.bp_base.specs.declared.point.Placement.{Placement};
ghost use Rattle.bp_base.specs.declared.point.Point.{Point};
ghost use Rattle.bp_base.specs.declared.refutation.Refutation.{Refutation};
ghost use Rattle.bp_base.specs.Tree.{TreeValue};
ghost use Rattle.bp_metric.specs.Nodes.{node_count_of};
ghost use Rattle.bp_metric.specs.Refutation.{Fits};
ghost use Rattle.bp_check.specs.Checks.{ProofFits};
ghost use Rattle.bp_revise.specs.Keep.{AreOfOneShape, kept, kept_of};
ghost use Rattle.bp_revise.specs.Start.{IsStart};

use bp_metric::Metric;
use bp_opening::one_opening;

/// What is kept of a proof that fits the empty path on some tree of the metric's shape fits it on the metric's tree, and has no more
/// nodes than the proof.
pub fn law_of_keep(metric: &Metric)
    ensures fits { (S : TreeValue) (start : ℕ) (proof : Option Refutation) → AreOfOneShape S metric.now.tree → ProofFits S metric.now.sheet proof → Fits metric.now.tree metric.now.sheet (kept_of metric.now.tree metric.now.sheet start proof) [] }
    ensures fewer { (start : ℕ) (r : Refutation) → node_count_of (kept metric.now.tree metric.now.sheet start r) ≤ node_count_of r }
{
    let _leaves = metric.leaves();
}

/// A revision starts at one placement.
pub fn one_start(metric: &Metric)
    ensures { (old : List Point) (p q : Placement) → IsStart metric.now.tree metric.now.sheet old p → IsStart metric.now.tree metric.now.sheet old q → p ≡ q }
{
    one_opening(metric);
}
