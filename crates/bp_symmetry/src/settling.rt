// Settling a placement.
ghost use Rattle.std.specs.Prelude.{◌≤◌, All};
ghost use Rattle.bp_base.specs.Limits.{most_number};
ghost use Rattle.bp_metric.specs.Valid.{Valid};
ghost use Rattle.bp_base.specs.Point.{IsSmallPoint};
ghost use Rattle.bp_symmetry.specs.Settled.{AreMoved, EachHasAllowed};

use crate::turn::turn;
use crate::twins::hand_out;
use bp_base::Point;
use bp_metric::Metric;

/// Turns, mirrors and sorts a valid placement so that it stays valid at its side, in grid units, and an allowed choice holds for each
/// pair. On a square: where the first two leaves are nearer on x than their distance, x and y are exchanged; where leaf 1 then lies
/// to the right of leaf 2, each x becomes `side - x`; where leaf 3 can only lie below leaf 1, each y becomes `side - y`. On a strip of
/// width W: where the first two leaves are apart on x and leaf 1 lies to the right of leaf 2, each x becomes `W - x`; where they are
/// nearer there and leaf 1 lies above leaf 2, each y becomes `side - y`. On both, among the leaves numbered 4 and up that have one
/// parent and one length, the points are sorted by `(x + y, x, y)` and handed out in leaf order.
pub fn settle(metric: &Metric, side: u64, points: &mut [Point])
    requires side { side ≤ most_number }
    requires valid { Valid metric.now.tree metric.now.sheet 1 side points.old }
    ensures valid { Valid metric.now.tree metric.now.sheet 1 side points.new }
    ensures allowed { EachHasAllowed metric.now.tree metric.now.sheet 1 points.new }
    ensures small { All IsSmallPoint points.new }
    ensures moves { AreMoved metric.now.tree metric.now.sheet 1 side points.old points.new }
{
    turn(metric, side, points);
    hand_out(metric, points);
}
