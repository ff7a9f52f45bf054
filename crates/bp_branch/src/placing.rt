// The points of least coordinates.
ghost use Rattle.std.specs.Prelude.{◌≡◌, IfOk, length, take};
ghost use Rattle.bp_branch.specs.Branches.{low_points, points_of};

use bp_base::{Least, NoMemory, Point, Sequence};
use std::alloc::Global;

/// The low points of a path, one for each leaf, in grid units, by its least coordinates.
pub fn low_points(alloc: Global, least: &Least) -> Result<Sequence<Point>, NoMemory>
    requires { length least.now.xs ≡ length least.now.ys }
    ensures { IfOk result (λ points. points ≡ low_points least.now) }
{
    let xs = least.xs.as_slice();
    let ys = least.ys.as_slice();
    let mut points = Vec::with_capacity(alloc, xs.len())?;
    for k in 0..xs.len() {
        points.push_reserved(Point { x: xs[k], y: ys[k] });
    }
    Ok(Sequence::from_vec(points))
}
