// What a step asks of two coordinates.
ghost use Rattle.std.specs.Prelude.{◌*◌, ◌<◌, ◌≤◌};
ghost use Rattle.bp_base.specs.Path.{IsPairOf};
ghost use Rattle.bp_base.specs.Tree.{leaf_count};
ghost use Rattle.bp_metric.specs.Distance.{most_distance};
ghost use Rattle.bp_steady.specs.Searching.{IsOrderOf};

use bp_base::{Choice, Step};
use bp_metric::Metric;

// The coordinate at `to` is at least that at `from` and the weight.
#[derive(Clone, Copy)]
pub struct Order {
    pub from: usize,
    pub to: usize,
    pub weight: u64,
}

pub fn order_of(metric: &Metric, step: Step) -> Order
    requires { IsPairOf (leaf_count metric.now.tree) step.pair }
    ensures order { IsOrderOf metric.now.tree step.pair step.choice result }
    ensures from { result.from < 2 * leaf_count metric.now.tree }
    ensures to { result.to < 2 * leaf_count metric.now.tree }
    ensures small { result.weight ≤ most_distance }
{
    let _leaves = metric.leaves();
    let (i, j) = (step.pair.i, step.pair.j);
    let first = 2 * (i as usize - 1);
    let second = 2 * (j as usize - 1);
    match step.choice {
        Choice::Left => Order {
            from: first,
            to: second,
            weight: metric.dist(i, j),
        },
        Choice::Right => Order {
            from: second,
            to: first,
            weight: metric.dist(j, i),
        },
        Choice::Below => Order {
            from: first + 1,
            to: second + 1,
            weight: metric.dist(i, j),
        },
        Choice::Above => Order {
            from: second + 1,
            to: first + 1,
            weight: metric.dist(j, i),
        },
    }
}
