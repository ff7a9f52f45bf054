// Worked trees, whose steady lists and numbers M a program that tries all placements and all paths gave too.
ghost use Rattle.std.specs.Prelude.{IsTrue};
ghost use Rattle.bp_metric.specs.Metric.{IsSheet};
ghost use Rattle.bp_metric.specs.Samples.{is_sample};

use bp_base::{Point, Sheet};
use bp_metric::Metric;
use bp_pairs::is_valid;
use bp_samples::tree;
use bp_steady::*;
use std::alloc::Global;
use std::test::Fail;

// The steady points of a tree, given points that are valid at the side; none where the budget is spent.
fn steady_of(
    alloc: Global,
    parents: &[u64],
    lengths: &[u64],
    sheet: Sheet,
    side: u64,
    given: &[(u64, u64)],
    budget: u64,
) -> Result<Option<Vec<Point>>, Fail>
    requires sample { IsTrue (is_sample parents.now lengths.now) }
    requires sheet { IsSheet sheet }
{
    let tree = tree(alloc, parents, lengths)?;
    let metric = Metric::on(alloc, &tree, sheet)?;
    let mut points = Vec::new(alloc);
    for (x, y) in given {
        points.push(Point { x: *x, y: *y })?;
    }
    if points.len() as u64 != metric.leaves()
        || is_valid(&metric, side, &points).is_err()
        || side > 999_999_999
    {
        return Err(Fail::from("no placement"));
    }
    match steady(alloc, &metric, side, &points, budget)? {
        Steadied::Points(points) => Ok(Some(points.into_vec())),
        Steadied::Spent => Ok(None),
    }
}

// Whether the steady points are the wanted ones, with this budget; with budget 1 it is spent.
fn has(
    alloc: Global,
    parents: &[u64],
    lengths: &[u64],
    sheet: Sheet,
    side: u64,
    given: &[(u64, u64)],
    budget: u64,
    wanted: &[(u64, u64)],
) -> Result<bool, Fail>
    requires sample { IsTrue (is_sample parents.now lengths.now) }
    requires sheet { IsSheet sheet }
{
    if steady_of(alloc, parents, lengths, sheet, side, given, 1)?.is_some() {
        return Ok(false);
    }
    let found = match steady_of(alloc, parents, lengths, sheet, side, given, budget)? {
        Some(found) => found,
        None => return Ok(false),
    };
    let same = found
        .iter()
        .zip(wanted)
        .all(|(p, (x, y))| p.x == *x && p.y == *y);
    Ok(found.len() == wanted.len() && same)
}

// The budgets are M, but that of the star of five.
#[test]
fn squares(rt: HostRuntime) -> Result<(), Fail> {
    let alloc = rt.alloc();
    let square = Sheet::Square;
    let star = [0; 6];
    let given = [(4, 4), (4, 2), (4, 0), (2, 4), (0, 2)];
    let five = [(0, 0), (0, 2), (0, 4), (2, 0), (2, 2)];
    let ones = [0, 1, 1, 1, 1, 1];
    assert!(rt; has(alloc, &star, &ones, square, 4, &given, 10_000_000, &five)?);
    assert!(rt; has(alloc, &star, &ones, square, 4, &five, 17_745, &five)?);
    let lengths = [0, 2, 2, 2, 1, 1];
    let given = [(5, 5), (5, 1), (1, 5), (2, 2), (2, 0)];
    let wanted = [(0, 0), (0, 4), (4, 0), (3, 3), (3, 5)];
    assert!(rt; has(alloc, &star, &lengths, square, 5, &given, 5085, &wanted)?);
    let given = [(3, 0), (3, 7)];
    assert!(rt;
        has(
            alloc,
            &[0; 3],
            &[0, 3, 4],
            square,
            7,
            &given,
            60,
            &[(0, 0), (0, 7)]
        )?
    );
    let parents = [0, 0, 0, 1, 1, 2, 2];
    let lengths = [0, 2, 2, 1, 1, 1, 1];
    let given = [(6, 6), (6, 4), (0, 6), (0, 1)];
    let wanted = [(0, 0), (0, 2), (6, 0), (6, 2)];
    assert!(rt; has(alloc, &parents, &lengths, square, 6, &given, 1338, &wanted)?);
    Ok(())
}

#[test]
fn strips(rt: HostRuntime) -> Result<(), Fail> {
    let alloc = rt.alloc();
    let star = [0; 6];
    let lengths = [0, 2, 2, 2, 1, 1];
    let strip = Sheet::Strip { width: 5 };
    let wanted = [(0, 0), (0, 4), (4, 0), (3, 3), (5, 3)];
    assert!(rt; has(alloc, &star, &lengths, strip, 4, &wanted, 4866, &wanted)?);
    let strip = Sheet::Strip { width: 0 };
    let given = [(0, 6), (0, 4), (0, 2), (0, 0)];
    let wanted = [(0, 0), (0, 2), (0, 4), (0, 6)];
    assert!(rt;
        has(
            alloc,
            &[0; 5],
            &[0, 1, 1, 1, 1],
            strip,
            6,
            &given,
            267,
            &wanted
        )?
    );
    let strip = Sheet::Strip { width: 4 };
    let given = [(4, 0), (2, 0), (0, 0)];
    let wanted = [(0, 0), (2, 0), (4, 0)];
    assert!(rt; has(alloc, &[0; 4], &[0, 1, 1, 1], strip, 0, &given, 83, &wanted)?);
    Ok(())
}
