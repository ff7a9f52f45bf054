// The first free point, among the points whose coordinates are 0 or an earlier coordinate and a distance.
ghost use Rattle.std.specs.Prelude.{◌≡◌, ◌+◌, ◌*◌, ◌<◌, ◌≤◌, length};
ghost use Rattle.bp_base.specs.Limits.{most_leaves};
ghost use Rattle.bp_base.specs.Tree.{leaf_count};
ghost use Rattle.bp_metric.specs.Distance.{most_distance};
ghost use Rattle.bp_metric.specs.Opening.{IsFirst, reach_on};
ghost use Rattle.bp_opening.specs.Sums.{AreNear, AtMost, CanStand, IsLeastInColumn, Takes, beside, next_leaf, start_on};

use crate::order::{can_stand, precedes};
use bp_base::{MOST_LENGTH, MOST_NODES, Point, Sheet};
use bp_metric::Metric;

// No two leaves are further apart: a tree has an edge fewer than nodes.
const MOST_DISTANCE: u64 = (MOST_NODES - 1) * MOST_LENGTH;

// The point at which the next leaf stands.
pub fn first_free(metric: &Metric, points: &[Point]) -> Point
    requires room { length points.now < leaf_count metric.now.tree }
    requires near { AreNear metric.now.sheet points.now }
    ensures first { IsFirst metric.now.tree metric.now.sheet points.now (next_leaf points.now) result }
    ensures near { reach_on metric.now.sheet result ≤ most_distance * length points.now }
{
    let mut best = start_on(metric.sheet(), points.len() as u64);
    for column in 0..points.len() + 1 {
        let x = sum_beside(metric, points, column).x;
        best = least_in_column(metric, points, x, best);
    }
    best
}

// A point that is free: so far to the right of all points, on a strip so far above them.
fn start_on(sheet: Sheet, count: u64) -> Point
    requires { count ≤ most_leaves }
    ensures { result ≡ start_on sheet count }
{
    match sheet {
        Sheet::Square => Point {
            x: MOST_DISTANCE * count,
            y: 0,
        },
        Sheet::Strip { .. } => Point {
            x: 0,
            y: MOST_DISTANCE * count,
        },
    }
}

fn least_in_column(metric: &Metric, points: &[Point], x: u64, start: Point) -> Point
    requires room { length points.now < leaf_count metric.now.tree }
    requires near { AreNear metric.now.sheet points.now }
    requires stands { CanStand metric.now.tree metric.now.sheet points.now start }
    ensures stands { CanStand metric.now.tree metric.now.sheet points.now result }
    ensures no_later { AtMost metric.now.sheet result start }
    ensures least { IsLeastInColumn metric.now.tree metric.now.sheet points.now x result (length points.now + 1) }
{
    let mut best = start;
    for row in 0..points.len() + 1 {
        let point = Point {
            x,
            y: sum_beside(metric, points, row).y,
        };
        best = better(metric, points, best, point);
    }
    best
}

// The point where it is free and stands before the best one, else the best one.
fn better(metric: &Metric, points: &[Point], best: Point, point: Point) -> Point
    requires room { length points.now < leaf_count metric.now.tree }
    requires stands { CanStand metric.now.tree metric.now.sheet points.now best }
    ensures stands { CanStand metric.now.tree metric.now.sheet points.now result }
    ensures either { Takes metric.now.tree metric.now.sheet points.now best point result }
{
    if precedes(metric.sheet(), point, best) && can_stand(metric, points, point) {
        point
    } else {
        best
    }
}

fn sum_beside(metric: &Metric, points: &[Point], leaf: usize) -> Point
    requires room { length points.now < leaf_count metric.now.tree }
    requires near { AreNear metric.now.sheet points.now }
    requires leaf { leaf ≤ length points.now }
    ensures { result ≡ beside metric.now.tree points.now leaf }
{
    if leaf == 0 {
        return Point { x: 0, y: 0 };
    }
    let point = points[leaf - 1];
    let distance = metric.dist(leaf as u64, points.len() as u64 + 1);
    Point {
        x: point.x + distance,
        y: point.y + distance,
    }
}
