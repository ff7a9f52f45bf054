// Settled placements of worked trees.
ghost use Rattle.std.specs.Prelude.{◌≡◌, ◌≤◌, IfOk};
ghost use Rattle.bp_base.specs.Limits.{most_number};
ghost use Rattle.bp_metric.specs.Metric.{IsSheet};

use bp_base::{Point, Sheet};
use bp_metric::Metric;
use bp_pairs::is_valid;
use bp_samples::tree;
use bp_symmetry::*;
use std::alloc::Global;
use std::test::Fail;

// Settles the points, which are valid at this side.
fn settled(metric: &Metric, side: u64, points: &mut [Point]) -> Result<(), Fail>
    requires { side ≤ most_number }
{
    if metric.leaves() != points.len() as u64 {
        return Err(Fail::from("not one point per leaf"));
    }
    if is_valid(metric, side, points).is_err() {
        return Err(Fail::from("not valid"));
    }
    settle(metric, side, points);
    law_of_settling(metric);
    one_settling(metric);
    law_of_refutations(metric);
    refutation_counts(metric);
    Ok(())
}

#[test]
fn settled_opening(rt: HostRuntime) -> Result<(), Fail> {
    let three = tree(rt.alloc(), &[0; 4], &[0, 9, 8, 2])?;
    let metric = Metric::of(rt.alloc(), &three)?;
    let mut points = [(0, 0), (0, 17), (10, 11)].map(|(x, y)| Point { x, y });
    settled(&metric, 17, &mut points)?;
    let wanted = [(0, 0), (17, 0), (11, 10)].map(|(x, y)| Point { x, y });
    assert!(rt; points == wanted);
    Ok(())
}

// Whether the points of the star of five, valid at side 5, settle to the others.
fn settles(
    alloc: Global,
    sheet: Sheet,
    from: [(u64, u64); 5],
    to: [(u64, u64); 5],
) -> Result<bool, Fail>
    requires { IsSheet sheet }
{
    let five = tree(alloc, &[0; 6], &[0, 2, 2, 2, 1, 1])?;
    let metric = Metric::on(alloc, &five, sheet)?;
    let mut points = from.map(|(x, y)| Point { x, y });
    settled(&metric, 5, &mut points)?;
    Ok(points == to.map(|(x, y)| Point { x, y }))
}

#[test]
fn settled_stars(rt: HostRuntime) -> Result<(), Fail> {
    let square = Sheet::Square;
    let strip = Sheet::Strip { width: 4 };
    let star = [(0, 0), (4, 0), (0, 4), (3, 3), (5, 3)];
    for (sheet, from, to) in [
        // as it is
        (square, star, star),
        // exchanged, and twins that are then handed out anew
        (square, [(0, 0), (0, 4), (4, 0), (3, 5), (3, 3)], star),
        // turned over twice
        (square, [(5, 5), (1, 5), (5, 1), (2, 2), (0, 2)], star),
        // twins with equal sums
        (
            square,
            [(0, 0), (4, 0), (0, 4), (5, 3), (3, 5)],
            [(0, 0), (4, 0), (0, 4), (3, 5), (5, 3)],
        ),
        // on a strip left and right exchanged
        (
            strip,
            [(4, 0), (0, 0), (0, 4), (3, 3), (3, 5)],
            [(0, 0), (4, 0), (4, 4), (1, 3), (1, 5)],
        ),
        // and top and bottom
        (
            strip,
            [(0, 5), (0, 1), (4, 5), (3, 2), (3, 0)],
            [(0, 0), (0, 4), (4, 0), (3, 3), (3, 5)],
        ),
    ] {
        assert!(rt; settles(rt.alloc(), sheet, from, to)?, "{from:?}");
    }
    Ok(())
}
