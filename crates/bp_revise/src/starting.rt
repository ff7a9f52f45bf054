// Where a revision starts.
ghost use Rattle.std.specs.Prelude.{◌≡◌, ◌≤◌, ◌↔◌, length, IfOk, IsTrue};
ghost use Rattle.bp_base.specs.Tree.{leaf_count};
ghost use Rattle.bp_metric.specs.Opening.{reach_on, side_of};
ghost use Rattle.bp_metric.specs.Valid.{Valid};
ghost use Rattle.bp_metric.specs.Distance.{most_side};
ghost use Rattle.bp_revise.specs.Start.{IsStart, WillDo};

use bp_base::{NoMemory, Placement, Point, Sequence, Sheet};
use bp_metric::Metric;
use bp_opening::open;
use bp_pairs::is_valid;
use std::alloc::Global;

/// The old points at the side that they need, in grid units, where they are valid there and need no more than the opening; else the
/// opening.
pub fn start(alloc: Global, metric: &Metric, old: Sequence<Point>) -> Result<Placement, NoMemory>
    requires { length old ≡ leaf_count metric.now.tree }
    ensures start { IfOk result (λ p. IsStart metric.now.tree metric.now.sheet old p) }
    ensures valid { IfOk result (λ p. Valid metric.now.tree metric.now.sheet 1 p.side p.points) }
    ensures small { IfOk result (λ p. p.side ≤ most_side) }
{
    let opening = open(alloc, metric)?;
    let side = side_of(metric.sheet(), old.as_slice());
    if will_do(metric, side, opening.side, old.as_slice()) {
        return Ok(Placement { side, points: old });
    }
    Ok(opening)
}

// Whether the points are valid at the side that they need, and that is at most the greatest one.
fn will_do(metric: &Metric, side: u64, most: u64, points: &[Point]) -> bool
    requires points { length points.now ≡ leaf_count metric.now.tree }
    requires side { side ≡ side_of metric.now.sheet points.now }
    ensures { IsTrue result ↔ WillDo metric.now.tree metric.now.sheet points.now most }
{
    side <= most && is_valid(metric, side, points).is_ok()
}

// The side that the points need.
fn side_of(sheet: Sheet, points: &[Point]) -> u64
    ensures { result ≡ side_of sheet points.now }
{
    let mut side = 0;
    for point in points {
        side = reach_on(sheet, *point).max(side);
    }
    side
}

// The side that the point needs.
fn reach_on(sheet: Sheet, point: Point) -> u64
    ensures { result ≡ reach_on sheet point }
{
    match sheet {
        Sheet::Square => point.x.max(point.y),
        Sheet::Strip { .. } => point.y,
    }
}
