ghost use Rattle.std.specs.Prelude.{◌≤◌, ◌↔◌, All, IsTrue};
ghost use Rattle.bp_base.specs.Limits.{most_number};
ghost use Rattle.bp_base.specs.Point.{IsSmallPoint};

use bp_base::{MOST_NUMBER, Point, Sequence};
use bp_metric::Metric;
use bp_pairs::is_valid;
use bp_samples::tree;
use bp_tally::*;
use std::test::Fail;

// The tally of points that are valid at this side.
fn counted(metric: &Metric, side: u64, points: &[Point]) -> Result<[u64; 4], Fail>
    requires { side ≤ most_number }
{
    if metric.leaves() != points.len() as u64 {
        return Err(Fail::from("not one point per leaf"));
    }
    if is_valid(metric, side, points).is_err() || !are_small(points) {
        return Err(Fail::from("not valid"));
    }
    law_of_pairs();
    Ok(numbers(tally(metric, points)))
}

fn are_small(points: &[Point]) -> bool
    ensures { IsTrue result ↔ All IsSmallPoint points.now }
{
    points
        .iter()
        .all(|point| point.x <= MOST_NUMBER && point.y <= MOST_NUMBER)
}

// The tally once they are settled.
fn settled(metric: &Metric, side: u64, points: Vec<Point>) -> Result<[u64; 4], Fail>
    requires { side ≤ most_number }
{
    if metric.leaves() != points.len() as u64 {
        return Err(Fail::from("not one point per leaf"));
    }
    if is_valid(metric, side, points.as_slice()).is_err() {
        return Err(Fail::from("not valid"));
    }
    Ok(numbers(settled_tally(metric, side, Sequence::from_vec(points))))
}

fn numbers(counts: Counts) -> [u64; 4] {
    [counts.left, counts.right, counts.below, counts.above]
}

#[test]
fn tallies(rt: HostRuntime) -> Result<(), Fail> {
    let alloc = rt.alloc();
    let three = Metric::of(alloc, &tree(alloc, &[0; 4], &[0, 9, 8, 2])?)?;
    let mirrored = [(0, 0), (17, 0), (11, 10)].map(|(x, y)| Point { x, y });
    assert!(rt; counted(&three, 17, &mirrored)? == [2, 0, 1, 0]);
    let opening = [(0, 0), (0, 17), (10, 11)].map(|(x, y)| Point { x, y });
    assert!(rt; settled(&three, 17, Vec::from_array(alloc, opening)?)? == [2, 0, 1, 0]);
    // the pair of the first two leaves allows Left alone, that of the first and the third no Above
    let turned = [(17, 17), (0, 17), (6, 7)].map(|(x, y)| Point { x, y });
    assert!(rt; counted(&three, 17, &turned)? == [0, 1, 0, 1]);
    Ok(())
}
