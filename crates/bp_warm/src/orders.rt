// What a step says on its axis.
ghost use Rattle.std.specs.Prelude.{◌≡◌};
ghost use Rattle.bp_warm.specs.Links.{IsOrder};

use bp_base::{Axis, Choice, Pair, Step};

// One leaf is placed before another on the axis.
#[derive(Clone, Copy)]
pub struct Order {
    pub axis: Axis,
    pub first: u64,
    pub second: u64,
}

pub fn order_of(step: Step) -> Order
    ensures { IsOrder step.pair step.choice result.axis result.first result.second }
{
    let Pair { i, j } = step.pair;
    match step.choice {
        Choice::Left => placed(Axis::X, i, j),
        Choice::Right => placed(Axis::X, j, i),
        Choice::Below => placed(Axis::Y, i, j),
        Choice::Above => placed(Axis::Y, j, i),
    }
}

fn placed(axis: Axis, first: u64, second: u64) -> Order
    ensures { result ≡ record { axis = axis; first = first; second = second } }
{
    Order {
        axis,
        first,
        second,
    }
}
