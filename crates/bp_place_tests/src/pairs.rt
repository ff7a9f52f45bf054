ghost use Rattle.std.specs.Prelude.{◌≡◌, ◌≤◌, IfOk};
ghost use Rattle.bp_base.specs.Limits.{most_leaves, most_number};
ghost use Rattle.bp_base.specs.Path.{IsPairOf};
ghost use Rattle.bp_base.specs.Tree.{leaf_count};
ghost use Rattle.bp_metric.specs.Metric.{IsSheet};

use bp_base::{Choice, Pair, Point, Sheet};
use bp_metric::Metric;
use bp_pairs::*;
use bp_samples::tree;
use std::alloc::Global;
use std::test::Fail;

// Whether each pair of n leaves has the next number.
fn are_numbered(n: u64) -> bool
    requires { n ≤ most_leaves }
{
    let mut next = 0;
    for i in 1..n {
        for j in i + 1..n + 1 {
            let pair = Pair { i, j };
            let number = pair_number(n, pair);
            if number != next || pair_at(n, number) != pair {
                return false;
            }
            next = number + 1;
        }
    }
    true
}

#[test]
fn numbers(rt: HostRuntime) -> Result<(), Fail> {
    for n in 2..33 {
        assert!(rt; are_numbered(n), "{n}");
    }
    numbers_rise();
    Ok(())
}

// Whether points have this flaw at side 5.
fn is_flaw(
    alloc: Global,
    sheet: Sheet,
    points: [(u64, u64); 5],
    flaw: Result<(), Flaw>,
) -> Result<bool, Fail>
    requires { IsSheet sheet }
{
    let tree = tree(alloc, &[0; 6], &[0, 2, 2, 2, 1, 1])?;
    let metric = Metric::on(alloc, &tree, sheet)?;
    if metric.leaves() != 5 {
        return Err(Fail::from("no star"));
    }
    let points = points.map(|(x, y)| Point { x, y });
    Ok(is_valid(&metric, 5, &points) == flaw)
}

#[test]
fn flaws(rt: HostRuntime) -> Result<(), Fail> {
    let alloc = rt.alloc();
    let strip = Sheet::Strip { width: 4 };
    let far = u64::MAX;
    let near = |i, j| Err(Flaw::Near { i, j });
    let outside = |i| Err(Flaw::Outside { i });
    let free = [(0, 0), (0, 4), (4, 0), (3, 3), (3, 5)];
    for (sheet, points, flaw) in [
        (Sheet::Square, free, Ok(())),
        (strip, free, Ok(())),
        (
            Sheet::Square,
            [(0, 0), (0, 4), (5, 0), (3, 3), (3, 5)],
            Ok(()),
        ),
        (strip, [(0, 0), (0, 4), (5, 0), (3, 3), (3, 5)], outside(3)),
        (
            Sheet::Square,
            [(0, 0), (0, 3), (3, 0), (far, 0), (0, far)],
            outside(4),
        ),
        (
            strip,
            [(0, 0), (0, 0), (0, 0), (0, 0), (4, far)],
            outside(5),
        ),
        (
            Sheet::Square,
            [(0, 0), (0, 3), (3, 0), (3, 3), (3, 3)],
            near(1, 2),
        ),
        (
            Sheet::Square,
            [(0, 0), (0, 4), (3, 3), (5, 5), (5, 5)],
            near(1, 3),
        ),
        (strip, [(0, 0), (0, 4), (4, 0), (3, 3), (3, 4)], near(4, 5)),
    ] {
        assert!(rt; is_flaw(alloc, sheet, points, flaw)?, "{flaw:?}");
    }
    Ok(())
}

// The letters of the choices that the pair allows.
fn letters(metric: &Metric, i: u64, j: u64) -> [char; 4]
    requires { IsPairOf (leaf_count metric.now.tree) (record { i = i; j = j }) }
{
    let set = allowed(metric, Pair { i, j });
    let mut letters = ['-'; 4];
    for k in 0..set.count() {
        letters[k as usize] = match set.at(k) {
            Choice::Left => 'l',
            Choice::Right => 'r',
            Choice::Below => 'b',
            Choice::Above => 'a',
        };
    }
    letters
}

#[test]
fn choices(rt: HostRuntime) -> Result<(), Fail> {
    let alloc = rt.alloc();
    let tree = tree(alloc, &[0; 6], &[0, 2, 2, 2, 1, 1])?;
    let square = Metric::of(alloc, &tree)?;
    let strip = Metric::on(alloc, &tree, Sheet::Strip { width: 4 })?;
    for (i, j, on_square, on_strip) in [
        (1, 2, ['l', '-', '-', '-'], ['l', 'b', '-', '-']),
        (1, 3, ['l', 'r', 'b', '-'], ['l', 'r', 'b', 'a']),
        (2, 3, ['l', 'r', 'b', 'a'], ['l', 'r', 'b', 'a']),
        (3, 4, ['l', 'r', 'b', 'a'], ['l', 'r', 'b', 'a']),
        (4, 5, ['l', 'b', '-', '-'], ['l', 'b', '-', '-']),
    ] {
        if i < 1 || j <= i || square.leaves() < j || strip.leaves() < j {
            return Err(Fail::from("no pair"));
        }
        assert!(rt; letters(&square, i, j) == on_square, "{i} {j}");
        assert!(rt; letters(&strip, i, j) == on_strip, "{i} {j}");
    }
    Ok(())
}

// Which choices hold for the star's first two leaves where all points are the origin but the second leaf's.
fn held(alloc: Global, x: u64, y: u64) -> Result<[bool; 4], Fail>
    requires x { x ≤ most_number }
    requires y { y ≤ most_number }
{
    let tree = tree(alloc, &[0; 6], &[0, 2, 2, 2, 1, 1])?;
    let metric = Metric::of(alloc, &tree)?;
    has_steady(&metric);
    one_steady(&metric);
    let pair = Pair { i: 1, j: 2 };
    let origin = Point { x: 4, y: 4 };
    let points = [origin, Point { x, y }, origin, origin, origin];
    if metric.leaves() != 5 {
        return Err(Fail::from("no star"));
    }
    Ok([
        holds(&metric, &points, pair, Choice::Left),
        holds(&metric, &points, pair, Choice::Right),
        holds(&metric, &points, pair, Choice::Below),
        holds(&metric, &points, pair, Choice::Above),
    ])
}

#[test]
fn holding(rt: HostRuntime) -> Result<(), Fail> {
    let alloc = rt.alloc();
    assert!(rt; held(alloc, 8, 0)? == [true, false, false, true]);
    assert!(rt; held(alloc, 0, 7)? == [false, true, false, false]);
    assert!(rt; held(alloc, 7, 8)? == [false, false, true, false]);
    assert!(rt; held(alloc, 7, 1)? == [false, false, false, false]);
    Ok(())
}
