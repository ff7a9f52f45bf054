// The steady list, coordinate by coordinate.
ghost use Rattle.std.specs.Prelude.{◌≡◌, ◌<◌, ◌≤◌, ◌*◌, List, length, IfOk, IfSome};
ghost use Rattle.bp_base.specs.declared.point.Point.{Point as AnyPoint};
ghost use Rattle.bp_base.specs.Limits.{most_number};
ghost use Rattle.bp_base.specs.Tree.{leaf_count};
ghost use Rattle.bp_metric.specs.Steady.{IsSteady};
ghost use Rattle.bp_metric.specs.Valid.{Valid};
ghost use Rattle.bp_steady.specs.Questions.{coordinates};
ghost use Rattle.bp_steady.specs.Searching.{IsFound, IsSteadied, StandsAt};
ghost use Rattle.bp_steady.specs.Stack.{IsGuide, IsGuided};

use crate::bounds::Bounds;
use crate::path::Path;
use crate::searching::{Answer, ask};
use bp_base::{NoMemory, Point, Sequence};
use bp_metric::Metric;
use bp_pairs::has_steady;
use std::alloc::Global;

/// The steady points, or that the budget didn't reach.
#[derive(Drop)]
pub enum Steadied {
    Points(Sequence<Point>),
    Spent,
}

/// The valid placement of this side, in grid units, whose list of coordinates is least. Each question is answered by a search; the
/// budget is how many paths all these searches may examine. The points show that the side has a valid placement.
pub fn steady(
    alloc: Global,
    metric: &Metric,
    side: u64,
    _points: &[Point],
    budget: u64,
) -> Result<Steadied, NoMemory>
    requires valid { Valid metric.now.tree metric.now.sheet 1 side _points.now }
    requires side { side ≤ most_number }
    ensures { IfOk result (IsSteadied metric.now.tree metric.now.sheet side budget) }
{
    has_steady(metric);
    let mut bounds = Bounds::whole(alloc, metric, side)?;
    let mut path = Path::new(alloc)?;
    let mut left = budget;
    for at in 0..2 * metric.leaves() as usize {
        match least_at(metric, &mut bounds, &mut path, side, at, &mut left)? {
            Some(least) => bounds.fix(at, least),
            None => return Ok(Steadied::Spent),
        }
    }
    Ok(Steadied::Points(points_of(alloc, metric, &bounds)?))
}

// The least number that this coordinate can have while those before it keep theirs.
fn least_at(
    metric: &Metric,
    bounds: &mut Bounds,
    path: &mut Path,
    _side: u64,
    at: usize,
    left: &mut u64,
) -> Result<Option<u64>, NoMemory>
    requires side { _side ≤ most_number }
    requires at { at < 2 * leaf_count metric.now.tree }
    requires stands { (P : List AnyPoint) × IsSteady metric.now.tree metric.now.sheet _side P × StandsAt metric.now.tree metric.now.sheet _side P at bounds.old }
    requires guide { IsGuide metric.now.tree bounds.old path.old.guide.items }
    ensures guide { IfOk result (λ found. IfSome found (λ least. IsGuided metric.now.tree bounds.new at least path.new.guide.items)) }
    ensures found { IfOk result (λ found. (P : List AnyPoint) → IsSteady metric.now.tree metric.now.sheet _side P → StandsAt metric.now.tree metric.now.sheet _side P at bounds.old → IsFound metric.now.tree metric.now.sheet _side P at left.old left.new bounds.new found) }
{
    let _leaves = metric.leaves();
    let mut low = 0;
    let mut high = bounds.high(at);
    while low < high {
        let middle = (low + high) / 2;
        bounds.set_high(at, middle);
        match ask(metric, bounds, path, left)? {
            Answer::Yes => high = middle,
            Answer::No => low = middle + 1,
            Answer::Spent => return Ok(None),
        }
    }
    Ok(Some(low))
}

// The points of the coordinates, each of which has one number left.
fn points_of(alloc: Global, metric: &Metric, bounds: &Bounds) -> Result<Sequence<Point>, NoMemory>
    requires { length bounds.now.low ≡ 2 * leaf_count metric.now.tree }
    ensures { IfOk result (λ points. coordinates points ≡ bounds.now.low) }
{
    let n = metric.leaves() as usize;
    let mut points = Vec::with_capacity(alloc, n)?;
    for k in 0..n {
        points.push(Point {
            x: bounds.low(2 * k),
            y: bounds.low(2 * k + 1),
        })?;
    }
    Ok(Sequence::from_vec(points))
}
