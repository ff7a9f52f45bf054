ghost use Rattle.std.specs.Prelude.{◌≡◌, ◌≤◌, IfOk};
ghost use Rattle.bp_metric.specs.Metric.{IsSheet};

use bp_base::{Point, Sheet, Tree};
use bp_metric::Metric;
use bp_opening::*;
use bp_samples::tree;
use std::alloc::Global;
use std::test::Fail;

// Whether the star's opening has this side and these points.
fn opens(
    alloc: Global,
    star: &Tree,
    sheet: Sheet,
    side: u64,
    points: [(u64, u64); 5],
) -> Result<bool, Fail>
    requires { IsSheet sheet }
{
    let metric = Metric::on(alloc, star, sheet)?;
    let placement = open(alloc, &metric)?;
    has_opening(&metric);
    one_opening(&metric);
    opening_valid(&metric);
    let wanted = points.map(|(x, y)| Point { x, y });
    Ok(placement.side == side && placement.points.as_slice() == wanted.as_slice())
}

#[test]
fn openings(rt: HostRuntime) -> Result<(), Fail> {
    let alloc = rt.alloc();
    let ones = tree(alloc, &[0; 6], &[0, 1, 1, 1, 1, 1])?;
    let mixed = tree(alloc, &[0; 6], &[0, 2, 2, 2, 1, 1])?;
    let square = [(0, 0), (0, 2), (2, 0), (2, 2), (0, 4)];
    assert!(rt; opens(alloc, &ones, Sheet::Square, 4, square)?);
    let square = [(0, 0), (0, 4), (4, 0), (3, 3), (3, 5)];
    assert!(rt; opens(alloc, &mixed, Sheet::Square, 5, square)?);
    let five = [(0, 0), (4, 0), (0, 4), (3, 3), (5, 3)];
    assert!(rt; opens(alloc, &mixed, Sheet::Strip { width: 5 }, 4, five)?);
    let four = [(0, 0), (4, 0), (0, 4), (3, 3), (3, 5)];
    assert!(rt; opens(alloc, &mixed, Sheet::Strip { width: 4 }, 5, four)?);
    let none = [(0, 0), (0, 2), (0, 4), (0, 6), (0, 8)];
    assert!(rt; opens(alloc, &ones, Sheet::Strip { width: 0 }, 8, none)?);
    Ok(())
}
