// The law of what a search leaves.
ghost use Rattle.std.specs.Prelude.{ℕ, All};
ghost use Rattle.bp_base.specs.declared.record.Settled.{Settled};
ghost use Rattle.bp_base.specs.declared.record.Task.{Task};
ghost use Rattle.bp_metric.specs.Stated.{IsStated};
ghost use Rattle.bp_core.specs.Settled.{IsSettled};

use bp_branch::law_of_children;
use bp_metric::Metric;
use bp_opening::one_opening;

/// What a search leaves stands in the stated tree: the path of each task left is the root, or a child of a record that was split.
pub fn law_of_left(metric: &Metric)
    ensures { (B : ℕ) (Z : Settled) → IsSettled metric.now.tree metric.now.sheet B Z → All (λ (t : Task). IsStated metric.now.tree metric.now.sheet t.path) Z.left }
{
    law_of_children(metric);
    one_opening(metric);
}
