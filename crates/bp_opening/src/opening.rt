ghost use Rattle.std.specs.Prelude.{◌≡◌, IfOk};
ghost use Rattle.bp_metric.specs.Opening.{IsOpening, side_of};
ghost use Rattle.bp_metric.specs.Valid.{Valid};
ghost use Rattle.bp_opening.specs.Small.{IsSmall};

use crate::first::first_free;
use crate::order::reach_on;
use bp_base::{NoMemory, Placement, Sequence};
use bp_metric::Metric;
use std::alloc::Global;

/// The opening packing: each leaf in order at the first point of the sheet, in grid units, that is at least its distances from
/// the points of the leaves before it. On a square the first is the one of the least greater coordinate, then of the least x, then
/// of the least y; on a strip it is the one of the least y, then of the least x.
pub fn open(alloc: Global, metric: &Metric) -> Result<Placement, NoMemory>
    ensures opening { IfOk result (λ p. IsOpening metric.now.tree metric.now.sheet p.points) }
    ensures side { IfOk result (λ p. p.side ≡ side_of metric.now.sheet p.points) }
    ensures valid { IfOk result (λ p. Valid metric.now.tree metric.now.sheet 1 p.side p.points) }
    ensures small { IfOk result (λ p. IsSmall p) }
{
    let count = metric.leaves();
    let sheet = metric.sheet();
    let mut points = Vec::new(alloc);
    let mut side = 0;
    for _ in 0..count {
        let point = first_free(metric, &points);
        side = reach_on(sheet, point).max(side);
        points.push(point)?;
    }
    Ok(Placement {
        side,
        points: Sequence::from_vec(points),
    })
}
