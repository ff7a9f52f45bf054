// Regions of worked placements, and each cell's answers beside a plain computation.
ghost use Rattle.std.specs.Prelude.{◌≡◌, ◌≤◌, length, IfOk};
ghost use Rattle.bp_base.specs.Limits.{most_number};
ghost use Rattle.bp_base.specs.Tree.{IsEdge, leaf_count};

use bp_base::{Axis, Placement, Point, Sequence, Tree};
use bp_metric::Metric;
use bp_pairs::is_valid;
use bp_regions::*;
use bp_samples::tree;
use std::alloc::Global;
use std::process::Abort;
use std::test::Fail;

// r a 2/r b 2/a a1 1/a a2 1/b b1 1/b b2 1/
fn twigs(alloc: Global) -> Result<Tree, Fail> {
    Ok(tree(alloc, &[0, 0, 0, 1, 1, 2, 2], &[0, 2, 2, 1, 1, 1, 1])?)
}

// r a 1/r c 1/a p 1/a q 1/a s 1/a t 1/
fn ring(alloc: Global) -> Result<Tree, Fail> {
    Ok(tree(alloc, &[0, 0, 0, 1, 1, 1, 1], &[0, 1, 1, 1, 1, 1, 1])?)
}

// r a 2/a b 1/b c 1/b d 2/r e 3/
fn bough(alloc: Global) -> Result<Tree, Fail> {
    Ok(tree(alloc, &[0, 0, 1, 2, 2, 0], &[0, 2, 1, 1, 2, 3])?)
}

// The regions of points that are valid at the side.
fn placed(alloc: Global, tree: &Tree, side: u64, points: &[Point]) -> Result<Regions, Fail>
    requires side { side ≤ most_number }
    ensures points { IfOk result (λ _. length points.now ≡ leaf_count tree.now) }
    ensures regions { IfOk result (λ r. r ≡ record { tree = tree.now; side = side; points = points.now }) }
{
    let metric = Metric::of(alloc, tree)?;
    if points.len() as u64 != metric.leaves() || is_valid(&metric, side, points).is_err() {
        return Err(Fail::from("not valid"));
    }
    law_of_regions(&metric);
    law_of_cuts(&metric);
    let points = Sequence::from_vec(Vec::from_slice(alloc, points)?);
    Ok(Regions::of(alloc, &metric, &Placement { side, points })?)
}

// The middle of the cell is nearer than the radius, both counted in halves.
fn is_near(at: u64, cell: u64, radius: u64) -> bool {
    let middle = 2 * u128::from(cell) + 1;
    middle.abs_diff(2 * u128::from(at)) < 2 * u128::from(radius)
}

// Reach by its definition.
fn reaches(metric: &Metric, points: &[Point], edge: u64, x: u64, y: u64) -> bool
    requires points { length points.now ≡ leaf_count metric.now.tree }
    requires edge { IsEdge metric.now.tree edge }
{
    for leaf in 1..metric.leaves() + 1 {
        if metric.below(leaf, edge) {
            let radius = metric.reach_radius(leaf, edge);
            let tip = points[leaf as usize - 1];
            if is_near(tip.x, x, radius) && is_near(tip.y, y, radius) {
                return true;
            }
        }
    }
    false
}

// Whether the edge stands above the node.
fn is_under(parents: &[u64], node: u64, edge: u64) -> bool {
    let mut node = node;
    for _ in parents {
        if node == edge {
            return true;
        }
        node = match parents.get(node as usize) {
            Some(up) => *up,
            None => 0,
        };
    }
    false
}

// Own by its definition.
fn owns(tree: &Tree, metric: &Metric, points: &[Point], edge: u64, x: u64, y: u64) -> bool
    requires metric { metric.now.tree ≡ tree.now }
    requires points { length points.now ≡ leaf_count tree.now }
    requires edge { IsEdge tree.now edge }
{
    for other in 1..tree.parents().len() as u64 {
        if other != edge
            && is_under(tree.parents(), other, edge)
            && reaches(metric, points, other, x, y)
        {
            return false;
        }
    }
    reaches(metric, points, edge, x, y)
}

// Each cell's answers beside the plain ones.
fn compare(
    rt: &impl Abort,
    alloc: Global,
    tree: &Tree,
    side: u64,
    points: &[Point],
) -> Result<(), Fail>
    requires side { side ≤ most_number }
{
    let metric = Metric::of(alloc, tree)?;
    let regions = placed(alloc, tree, side, points)?;
    for x in 0..side {
        for y in 0..side {
            let owner = regions.owner(x, y);
            let mut owned = false;
            for edge in 1..tree.parents().len() as u64 {
                let reach = reaches(&metric, points, edge, x, y);
                let own = owns(tree, &metric, points, edge, x, y);
                assert_eq!(rt; regions.reach(edge, x, y), reach, "{edge} {x} {y}");
                assert_eq!(rt; regions.own(edge, x, y), own, "{edge} {x} {y}");
                assert_eq!(rt; owner == Some(edge), own, "{edge} {x} {y}");
                owned = owned || own;
            }
            assert_eq!(rt; owner.is_some(), owned, "{x} {y}");
        }
    }
    Ok(())
}

#[test]
fn two_twigs(rt: HostRuntime) -> Result<(), Fail> {
    let alloc = rt.alloc();
    let points = [
        Point { x: 0, y: 0 },
        Point { x: 0, y: 2 },
        Point { x: 6, y: 0 },
        Point { x: 6, y: 2 },
    ];
    let tree = twigs(alloc)?;
    let regions = placed(alloc, &tree, 6, &points)?;
    assert!(rt; !regions.own(1, 0, 2));
    assert!(rt; regions.own(1, 1, 0));
    // a 0 stands for no owner
    for (y, row) in [
        (0, [3, 1, 1, 2, 2, 5]),
        (1, [4, 1, 1, 2, 2, 6]),
        (2, [4, 1, 1, 2, 2, 6]),
        (3, [1, 1, 1, 2, 2, 2]),
        (4, [1, 1, 1, 2, 2, 2]),
        (5, [0, 0, 0, 0, 0, 0]),
    ] {
        for x in 0..6 {
            let owner = regions.owner(x, y).unwrap_or(0);
            assert_eq!(rt; owner, row[x as usize], "{x} {y}");
        }
    }
    assert_eq!(rt; regions.cuts(Axis::X), [0, 1, 3, 5, 6].as_slice());
    assert_eq!(rt; regions.cuts(Axis::Y), [0, 1, 3, 5, 6].as_slice());
    compare(&rt, alloc, &tree, 6, &points)
}

#[test]
fn ring_with_a_hole(rt: HostRuntime) -> Result<(), Fail> {
    let alloc = rt.alloc();
    let points = [
        Point { x: 9, y: 0 },
        Point { x: 2, y: 2 },
        Point { x: 6, y: 3 },
        Point { x: 5, y: 7 },
        Point { x: 1, y: 6 },
    ];
    let tree = ring(alloc)?;
    let regions = placed(alloc, &tree, 9, &points)?;
    let areas = [0, 60, 1, 4, 4, 4, 4];
    for edge in 1..tree.parents().len() as u64 {
        let mut cells = 0_u32;
        for x in 0..9 {
            for y in 0..9 {
                cells = cells.wrapping_add(u32::from(regions.reach(edge, x, y)));
            }
        }
        assert_eq!(rt; areas.get(edge as usize), Some(&cells), "{edge}");
    }
    assert_eq!(rt; regions.owner(3, 4), None);
    compare(&rt, alloc, &tree, 9, &points)
}

#[test]
fn edges_in_a_row(rt: HostRuntime) -> Result<(), Fail> {
    let alloc = rt.alloc();
    let points = [
        Point { x: 0, y: 0 },
        Point { x: 3, y: 1 },
        Point { x: 8, y: 9 },
    ];
    compare(&rt, alloc, &bough(alloc)?, 9, &points)
}

#[test]
fn greatest_side(rt: HostRuntime) -> Result<(), Fail> {
    let alloc = rt.alloc();
    let end = 999_999_999;
    let points = [
        Point { x: 0, y: 0 },
        Point { x: 0, y: end },
        Point { x: end, y: 0 },
        Point { x: end, y: end },
    ];
    let regions = placed(alloc, &twigs(alloc)?, end, &points)?;
    let cuts = [0, 1, 3, end - 3, end - 1, end];
    assert_eq!(rt; regions.cuts(Axis::X), cuts.as_slice());
    assert_eq!(rt; regions.cuts(Axis::Y), cuts.as_slice());
    assert_eq!(rt; regions.owner(end - 1, end - 1), Some(6));
    assert_eq!(rt; regions.owner(end - 2, end - 1), Some(2));
    assert_eq!(rt; regions.owner(end - 4, end - 1), None);
    assert_eq!(rt; regions.owner(500_000_000, 5), None);
    Ok(())
}
