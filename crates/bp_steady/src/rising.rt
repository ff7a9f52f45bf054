// Raising a row of coordinates until it meets each step of a path, or one must pass its high number.
ghost use Rattle.std.specs.Prelude.{◌≡◌, ℕ, Some, slice_get};
ghost use Rattle.bp_base.specs.Path.{IsPairOf};
ghost use Rattle.bp_base.specs.Tree.{leaf_count};
ghost use Rattle.bp_metric.specs.Chains.{HasPairsOf};
ghost use Rattle.bp_steady.specs.Searching.{AreBounds, IsPassed, IsPulled, IsRaised, IsRising};

use crate::bounds::Bounds;
use crate::orders::order_of;
use bp_base::Step;
use bp_metric::Metric;

// Met: nothing had to rise. Above: a coordinate would pass its high number.
#[derive(Clone, Copy)]
pub enum Pulled {
    Met,
    Risen,
    Above,
}

// Raises the row to the least that meets each step; false where none within the bounds does.
pub fn raise(metric: &Metric, bounds: &Bounds, steps: &[Step], row: &mut [u64; 64]) -> bool
    requires bounds { AreBounds metric.now.tree bounds.now }
    requires pairs { HasPairsOf (leaf_count metric.now.tree) steps.now }
    requires rising { IsRising metric.now.tree steps.now bounds.now row.old }
    ensures { IsRaised metric.now.tree steps.now bounds.now row.new result }
{
    loop {
        match pass(metric, bounds, steps, row) {
            Pulled::Met => return true,
            Pulled::Risen => {}
            Pulled::Above => return false,
        }
    }
}

// Raises it by each step in turn.
fn pass(metric: &Metric, bounds: &Bounds, steps: &[Step], row: &mut [u64; 64]) -> Pulled
    requires bounds { AreBounds metric.now.tree bounds.now }
    requires pairs { HasPairsOf (leaf_count metric.now.tree) steps.now }
    requires rising { IsRising metric.now.tree steps.now bounds.now row.old }
    ensures { IsPassed metric.now.tree steps.now bounds.now row.old row.new result }
{
    let mut all = Pulled::Met;
    for step in steps {
        match pull(metric, bounds, steps, *step, row) {
            Pulled::Met => {}
            Pulled::Risen => all = Pulled::Risen,
            Pulled::Above => return Pulled::Above,
        }
    }
    all
}

// Raises it by one step.
fn pull(
    metric: &Metric,
    bounds: &Bounds,
    _steps: &[Step],
    step: Step,
    row: &mut [u64; 64],
) -> Pulled
    requires bounds { AreBounds metric.now.tree bounds.now }
    requires pair { IsPairOf (leaf_count metric.now.tree) step.pair }
    requires step { (k : ℕ) × (slice_get _steps.now k ≡ Some step) }
    requires rising { IsRising metric.now.tree _steps.now bounds.now row.old }
    ensures { IsPulled metric.now.tree _steps.now bounds.now step row.old row.new result }
{
    let _leaves = metric.leaves();
    let order = order_of(metric, step);
    let asked = row[order.from] + order.weight;
    if asked <= row[order.to] {
        return Pulled::Met;
    }
    if bounds.high(order.to) < asked {
        return Pulled::Above;
    }
    row[order.to] = asked;
    Pulled::Risen
}
