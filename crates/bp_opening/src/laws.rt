// Laws of the opening.
ghost use Rattle.std.specs.Prelude.{◌≡◌, List};
ghost use Rattle.bp_base.specs.declared.point.Point.{Point};
ghost use Rattle.bp_metric.specs.Opening.{IsOpening, side_of};
ghost use Rattle.bp_metric.specs.Valid.{Valid};

use bp_metric::Metric;

/// There is an opening.
pub fn has_opening(metric: &Metric)
    ensures { (P : List Point) × IsOpening metric.now.tree metric.now.sheet P }
{
    let _leaves = metric.leaves();
}

/// There is only one opening.
pub fn one_opening(metric: &Metric)
    ensures { (P Q : List Point) → IsOpening metric.now.tree metric.now.sheet P → IsOpening metric.now.tree metric.now.sheet Q → P ≡ Q }
{
    let _leaves = metric.leaves();
}

/// The opening is valid at the side that it needs.
pub fn opening_valid(metric: &Metric)
    ensures { (P : List Point) → IsOpening metric.now.tree metric.now.sheet P → Valid metric.now.tree metric.now.sheet 1 (side_of metric.now.sheet P) P }
{
    let _leaves = metric.leaves();
}
