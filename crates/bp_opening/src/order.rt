// The order of points, and which points are free.
ghost use Rattle.std.specs.Prelude.{◌≡◌, ◌+◌, ◌*◌, ◌<◌, ◌≤◌, ◌↔◌, IsTrue, length};
ghost use Rattle.bp_base.specs.declared.point.Sheet.TheVariants.{Square};
ghost use Rattle.bp_base.specs.Tree.{leaf_count};
ghost use Rattle.bp_metric.specs.Opening.{IsFree, IsWithin, Precedes, reach_on};
ghost use Rattle.bp_base.specs.Point.{gap};
ghost use Rattle.bp_opening.specs.Sums.{CanStand, next_leaf};

use bp_base::{Point, Sheet};
use bp_metric::Metric;

// The side that the point needs.
pub fn reach_on(sheet: Sheet, point: Point) -> u64
    ensures { result ≡ reach_on sheet point }
{
    match sheet {
        Sheet::Square => point.x.max(point.y),
        Sheet::Strip { .. } => point.y,
    }
}

pub fn precedes(sheet: Sheet, p: Point, r: Point) -> bool
    ensures { IsTrue result ↔ Precedes sheet p r }
{
    match sheet {
        Sheet::Square => precedes_on_square(p, r),
        Sheet::Strip { .. } => p.y < r.y || p.y == r.y && p.x < r.x,
    }
}

fn precedes_on_square(p: Point, r: Point) -> bool
    ensures { IsTrue result ↔ Precedes Square p r }
{
    let reach = p.x.max(p.y);
    let other = r.x.max(r.y);
    reach < other || reach == other && (p.x < r.x || p.x == r.x && p.y < r.y)
}

// Whether the next leaf may stand at the point.
pub fn can_stand(metric: &Metric, points: &[Point], point: Point) -> bool
    requires room { length points.now < leaf_count metric.now.tree }
    ensures { IsTrue result ↔ CanStand metric.now.tree metric.now.sheet points.now point }
{
    is_within(metric.sheet(), point) && is_free(metric, points, point)
}

fn is_within(sheet: Sheet, point: Point) -> bool
    ensures { IsTrue result ↔ IsWithin sheet point }
{
    match sheet {
        Sheet::Square => true,
        Sheet::Strip { width } => point.x <= width,
    }
}

fn is_free(metric: &Metric, points: &[Point], point: Point) -> bool
    requires room { length points.now < leaf_count metric.now.tree }
    ensures { IsTrue result ↔ IsFree metric.now.tree points.now (next_leaf points.now) point }
{
    let next = points.len() as u64 + 1;
    for (before, other) in points.iter().enumerate() {
        if gap(*other, point) < metric.dist(before as u64 + 1, next) {
            return false;
        }
    }
    true
}

fn gap(p: Point, r: Point) -> u64
    ensures { result ≡ gap p r }
{
    p.x.abs_diff(r.x).max(p.y.abs_diff(r.y))
}
