// The moves of the whole sheet.
ghost use Rattle.std.specs.Prelude.{◌≡◌, ◌≤◌, ◌<◌, length, All};
ghost use Rattle.bp_base.specs.Limits.{most_number};
ghost use Rattle.bp_base.specs.Tree.{leaf_count};
ghost use Rattle.bp_metric.specs.Metric.{IsMetric};
ghost use Rattle.bp_metric.specs.Valid.{Valid};
ghost use Rattle.bp_base.specs.Point.{IsSmallPoint};
ghost use Rattle.bp_symmetry.specs.Moves.{are_near_on_x, faced_x, faced_y, is_third_below, laid, raised, turned};

use crate::moves::{exchange, mirror_x, mirror_y};
use bp_base::{Choice, Pair, Point, Sheet};
use bp_metric::Metric;
use bp_pairs::holds;

// Turns the points so that an allowed choice holds for the pairs (1,2) and (1,3).
#[tactic(auto, unfolding(crate::specs::Moves::turned))]
pub fn turn(metric: &Metric, side: u64, points: &mut [Point])
    requires side { side ≤ most_number }
    requires valid { Valid metric.now.tree metric.now.sheet 1 side points.old }
    ensures turned { points.new ≡ turned metric.now.tree metric.now.sheet 1 side points.old }
    ensures metric { IsMetric metric.now }
{
    match metric.sheet() {
        Sheet::Square => {
            lay(metric, points);
            face_x(points, side);
            raise(metric, side, points);
        }
        Sheet::Strip { width } => {
            if are_near_on_x(metric, points) {
                face_y(points, side);
            } else {
                face_x(points, width);
            }
        }
    }
}

// Exchanges x and y where the first two leaves are near on x.
fn lay(metric: &Metric, points: &mut [Point])
    requires { length points.old ≡ leaf_count metric.now.tree }
    ensures { points.new ≡ laid metric.now.tree 1 points.old }
{
    if are_near_on_x(metric, points) {
        exchange(points);
    }
}

// Whether the first two leaves are nearer on x than their distance.
fn are_near_on_x(metric: &Metric, points: &[Point]) -> bool
    requires { length points.now ≡ leaf_count metric.now.tree }
    ensures { result ≡ are_near_on_x metric.now.tree 1 points.now }
{
    let _leaves = metric.leaves();
    points[0].x.abs_diff(points[1].x) < metric.dist(1, 2)
}

// Turns over the sheet of this width where leaf 1 lies to the right of leaf 2.
fn face_x(points: &mut [Point], width: u64)
    requires two { 2 ≤ length points.old }
    requires within { All (λ p. p.x ≤ width) points.old }
    ensures { points.new ≡ faced_x width points.old }
{
    if points[1].x < points[0].x {
        mirror_x(points, width);
    }
}

// Turns over the sheet of this side where leaf 1 lies above leaf 2.
fn face_y(points: &mut [Point], side: u64)
    requires two { 2 ≤ length points.old }
    requires within { All (λ p. p.y ≤ side) points.old }
    ensures { points.new ≡ faced_y side points.old }
{
    if points[1].y < points[0].y {
        mirror_y(points, side);
    }
}

// Turns over the sheet of this side where leaf 3 can only lie below leaf 1.
fn raise(metric: &Metric, side: u64, points: &mut [Point])
    requires points { length points.old ≡ leaf_count metric.now.tree }
    requires small { All IsSmallPoint points.old }
    requires within { All (λ p. p.y ≤ side) points.old }
    ensures { points.new ≡ raised metric.now.tree 1 side points.old }
{
    if is_third_below(metric, points) {
        mirror_y(points, side);
    }
}

// Whether leaf 3 is there, and lies neither to the right of leaf 1 nor to its left nor above it.
fn is_third_below(metric: &Metric, points: &[Point]) -> bool
    requires points { length points.now ≡ leaf_count metric.now.tree }
    requires small { All IsSmallPoint points.now }
    ensures { result ≡ is_third_below metric.now.tree 1 points.now }
{
    if metric.leaves() < 3 {
        return false;
    }
    let pair = Pair { i: 1, j: 3 };
    !holds(metric, points, pair, Choice::Left)
        && !holds(metric, points, pair, Choice::Right)
        && !holds(metric, points, pair, Choice::Below)
}
