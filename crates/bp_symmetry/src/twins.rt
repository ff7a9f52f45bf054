// Handing out points among late twins.
ghost use Rattle.std.specs.Prelude.{◌≡◌, ◌⊎◌, ◌≤◌, ◌<◌, ◌↔◌, ℕ, length, IsTrue, All};
ghost use Rattle.bp_base.specs.declared.point.Sheet.{Sheet as AnySheet};
ghost use Rattle.bp_base.specs.Path.{IsPairOf};
ghost use Rattle.bp_base.specs.Tree.{leaf_count};
ghost use Rattle.bp_metric.specs.Choices.{are_late_twins};
ghost use Rattle.bp_metric.specs.Valid.{Valid};
ghost use Rattle.bp_base.specs.Point.{IsSmallPoint};
ghost use Rattle.bp_symmetry.specs.Twins.{IsAfter, IsHandedOut};
ghost use Rattle.bp_symmetry.specs.Exchanges.{PutsInOrder};

use bp_base::{Pair, Point};
use bp_metric::Metric;
use bp_pairs::pair_at;

// Sorts the points of late twins, among those of one parent and one length.
pub fn hand_out(metric: &Metric, points: &mut [Point])
    requires points { length points.old ≡ leaf_count metric.now.tree }
    requires small { All IsSmallPoint points.old }
    ensures handed { IsHandedOut metric.now.tree points.old points.new }
    ensures small { All IsSmallPoint points.new }
    ensures valid { (G : AnySheet) (q s : ℕ) → Valid metric.now.tree G q s points.old → Valid metric.now.tree G q s points.new }
{
    let count = metric.leaves();
    for number in 0..count * (count - 1) / 2 {
        put_in_order(metric, points, pair_at(count, number));
    }
}

// Exchanges the points of late twins where that of the first stands after that of the second.
fn put_in_order(metric: &Metric, points: &mut [Point], pair: Pair)
    requires points { length points.old ≡ leaf_count metric.now.tree }
    requires small { All IsSmallPoint points.old }
    requires pair { IsPairOf (leaf_count metric.now.tree) pair }
    ensures order { PutsInOrder metric.now.tree pair points.old points.new }
    ensures small { All IsSmallPoint points.new }
{
    let first = pair.i as usize - 1;
    let second = pair.j as usize - 1;
    if are_late_twins(metric, pair) && is_after(points[first], points[second]) {
        points.swap(first, second);
    }
}

// Whether the leaves are twins that are both numbered 4 or more.
fn are_late_twins(metric: &Metric, pair: Pair) -> bool
    requires { IsPairOf (leaf_count metric.now.tree) pair }
    ensures { result ≡ are_late_twins metric.now.tree pair }
{
    pair.i >= 4 && pair.j >= 4 && metric.twins(pair.i, pair.j)
}

// Whether p stands after r in the order by (x + y, x, y).
fn is_after(p: Point, r: Point) -> bool
    requires p { IsSmallPoint p }
    requires r { IsSmallPoint r }
    ensures { IsTrue result ↔ IsAfter p r }
{
    (r.x + r.y, r.x, r.y) < (p.x + p.y, p.x, p.y)
}
