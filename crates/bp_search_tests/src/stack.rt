// Worked searches, each from the opening.
ghost use Rattle.std.specs.Prelude.{◌≤◌, ℕ, IfOk};
ghost use Rattle.bp_metric.specs.Floor.{IsFloorSide};
ghost use Rattle.bp_metric.specs.Metric.{IsSheet};
ghost use Rattle.bp_core.specs.Underway.{IsUnderway};

use bp_base::{NoMemory, Point, Settled, Sheet, Tree};
use bp_core::law_of_left;
use bp_floor::floor;
use bp_metric::Metric;
use bp_opening::open;
use bp_samples::tree;
use bp_stack::{begin, search};
use std::alloc::Global;
use std::process::Abort;
use std::test::Fail;

// The beginning of the metric's search.
fn begun(alloc: Global, metric: &Metric) -> Result<Settled, NoMemory>
    ensures { IfOk result (λ Z. (B : ℕ) → IsUnderway metric.now.tree metric.now.sheet B Z) }
{
    let opening = open(alloc, metric)?;
    begin(alloc, metric, opening)
}

fn floor_side(alloc: Global, metric: &Metric) -> Result<u64, NoMemory>
    ensures { IfOk result (λ side. IsFloorSide metric.now.tree metric.now.sheet side) }
{
    let found = floor(alloc, metric)?;
    Ok(found.side)
}

// What a search ends with, as a test wants it.
#[derive(Clone, Copy)]
struct Wanted<'a> {
    side: u64,
    records: u64,
    left: usize,
    points: &'a [(u64, u64)],
}

fn are_points(points: &[Point], wanted: &[(u64, u64)]) -> bool {
    points.len() == wanted.len()
        && points
            .iter()
            .zip(wanted)
            .all(|(point, (x, y))| point.x == *x && point.y == *y)
}

// The search has come to what is wanted, and its records have the tickets from 0 on.
fn is_wanted(rt: &impl Abort, found: &Settled, wanted: &Wanted<'_>) {
    assert_eq!(rt; found.side, wanted.side);
    assert_eq!(rt; found.examined, wanted.records);
    assert_eq!(rt; found.records.len() as u64, wanted.records);
    assert_eq!(rt; found.left.len(), wanted.left);
    assert!(rt; are_points(found.points.as_slice(), wanted.points));
    let mut ticket = 0;
    for record in found.records.as_slice() {
        assert_eq!(rt; record.ticket, ticket);
        assert!(rt; record.bound <= record.given);
        ticket = record.ticket.saturating_add(1);
    }
}

fn ends(
    rt: &impl Abort,
    alloc: Global,
    tree: &Tree,
    sheet: Sheet,
    budget: u64,
    wanted: &Wanted<'_>,
) -> Result<(), NoMemory>
    requires { IsSheet sheet }
{
    let metric = Metric::on(alloc, tree, sheet)?;
    let start = begun(alloc, &metric)?;
    let side = floor_side(alloc, &metric)?;
    let found = search(alloc, &metric, start, side, budget)?;
    law_of_left(&metric);
    is_wanted(rt, &found, wanted);
    Ok(())
}

#[test]
fn star_of_five(rt: HostRuntime) -> Result<(), Fail> {
    let alloc = rt.alloc();
    let star = tree(alloc, &[0, 0, 0, 0, 0, 0], &[0, 2, 2, 2, 1, 1])?;
    let opened = [(0, 0), (0, 4), (4, 0), (3, 3), (3, 5)];
    let rows = [(0, 1), (1, 1), (257, 0)];
    for (records, left) in rows {
        let budget = if left == 0 { 50_000 } else { records };
        let wanted = Wanted {
            side: 5,
            records,
            left,
            points: &opened,
        };
        ends(&rt, alloc, &star, Sheet::Square, budget, &wanted)?;
    }
    let wanted = Wanted {
        side: 5,
        records: 715,
        left: 0,
        points: &[(0, 0), (4, 0), (0, 4), (3, 3), (3, 5)],
    };
    let strip = Sheet::Strip { width: 4 };
    ends(&rt, alloc, &star, strip, 200_000, &wanted)?;
    let at_floor = Wanted {
        side: 4,
        records: 0,
        left: 1,
        points: &[(0, 0), (4, 0), (0, 4), (3, 3), (5, 3)],
    };
    let strip = Sheet::Strip { width: 5 };
    Ok(ends(&rt, alloc, &star, strip, 200_000, &at_floor)?)
}

// Three branches are solved, each with a lesser side than the one before.
#[test]
fn better_and_better(rt: HostRuntime) -> Result<(), Fail> {
    let alloc = rt.alloc();
    let small = tree(alloc, &[0, 0, 0, 0, 0, 4, 0], &[0, 1, 4, 3, 1, 4, 4])?;
    let wanted = Wanted {
        side: 9,
        records: 62,
        left: 0,
        points: &[(4, 0), (0, 7), (0, 0), (9, 9), (9, 0)],
    };
    Ok(ends(&rt, alloc, &small, Sheet::Square, 200_000, &wanted)?)
}

#[test]
fn better_on_a_strip(rt: HostRuntime) -> Result<(), Fail> {
    let alloc = rt.alloc();
    let parents = [0, 0, 0, 0, 1, 0, 4, 0, 4, 4];
    let tree = tree(alloc, &parents, &[0, 3, 1, 3, 3, 4, 1, 3, 3, 1])?;
    let wanted = Wanted {
        side: 25,
        records: 181,
        left: 0,
        points: &[(0, 5), (4, 7), (0, 0), (0, 23), (0, 13), (4, 25), (0, 25)],
    };
    let strip = Sheet::Strip { width: 4 };
    Ok(ends(&rt, alloc, &tree, strip, 200_000, &wanted)?)
}

// A tree of eight leaves whose search ends at the floor, with branches left.
#[test]
fn to_the_floor(rt: HostRuntime) -> Result<(), Fail> {
    let alloc = rt.alloc();
    let parents = [0, 0, 0, 1, 1, 1, 1, 2, 2, 2, 2];
    let tree = tree(alloc, &parents, &[0, 1, 2, 2, 2, 1, 1, 3, 1, 1, 1])?;
    let opened = Wanted {
        side: 9,
        records: 10,
        left: 16,
        points: &[
            (0, 0),
            (0, 4),
            (3, 0),
            (3, 2),
            (8, 9),
            (8, 0),
            (8, 2),
            (8, 4),
        ],
    };
    ends(&rt, alloc, &tree, Sheet::Square, 10, &opened)?;
    let wanted = Wanted {
        side: 8,
        records: 111,
        left: 18,
        points: &[
            (0, 8),
            (0, 0),
            (0, 3),
            (0, 5),
            (8, 4),
            (6, 8),
            (8, 8),
            (6, 0),
        ],
    };
    Ok(ends(&rt, alloc, &tree, Sheet::Square, 200_000, &wanted)?)
}

// A search of eight leaves that is broken off by its budget and goes on.
#[test]
fn goes_on(rt: HostRuntime) -> Result<(), Fail> {
    let alloc = rt.alloc();
    let parents = [0, 0, 0, 2, 0, 0, 0, 0, 0, 0, 1];
    let tree = tree(alloc, &parents, &[0, 2, 2, 1, 4, 4, 3, 2, 4, 1, 1])?;
    let metric = Metric::of(alloc, &tree)?;
    let start = begun(alloc, &metric)?;
    let side = floor_side(alloc, &metric)?;
    let first = search(alloc, &metric, start, side, 100)?;
    assert_eq!(&rt; first.records.len(), 100);
    assert_eq!(&rt; first.side, 13);
    let second = search(alloc, &metric, first, side, 200_000)?;
    let wanted = Wanted {
        side: 13,
        records: 860,
        left: 0,
        points: &[
            (0, 0),
            (0, 13),
            (13, 12),
            (6, 0),
            (13, 6),
            (13, 0),
            (10, 5),
            (6, 6),
        ],
    };
    is_wanted(&rt, &second, &wanted);
    Ok(())
}
