// Contours of worked placements, and of drawn ones beside a plain look at each unit segment.
ghost use Rattle.std.specs.Prelude.{◌≡◌, ◌≤◌, IfOk, IfSome};
ghost use Rattle.bp_base.specs.Limits.{most_number};
ghost use Rattle.bp_base.specs.Tree.{IsEdge};

use bp_base::{Placement, Point, Sequence, Tree};
use bp_contour::*;
use bp_metric::Metric;
use bp_pairs::is_valid;
use bp_regions::Regions;
use bp_samples::tree;
use std::alloc::Global;
use std::process::Abort;
use std::test::Fail;

// r a 2/r b 2/a a1 1/a a2 1/b b1 1/b b2 1/
fn twigs(alloc: Global) -> Result<Tree, Fail> {
    Ok(tree(alloc, &[0, 0, 0, 1, 1, 2, 2], &[0, 2, 2, 1, 1, 1, 1])?)
}

// r a 1/r c 1/a p 1/a q 1/
fn corners(alloc: Global) -> Result<Tree, Fail> {
    Ok(tree(alloc, &[0, 0, 0, 1, 1], &[0, 1, 1, 1, 1])?)
}

// r a 1/r c 1/a p 1/a q 1/a s 1/a t 1/
fn ring(alloc: Global) -> Result<Tree, Fail> {
    Ok(tree(alloc, &[0, 0, 0, 1, 1, 1, 1], &[0, 1, 1, 1, 1, 1, 1])?)
}

// The regions of points that are valid at the side, or none.
fn placed(alloc: Global, tree: &Tree, side: u64, points: &[Point]) -> Result<Option<Regions>, Fail>
    requires side { side ≤ most_number }
    ensures { IfOk result (λ found. IfSome found (λ r. r ≡ record { tree = tree.now; side = side; points = points.now })) }
{
    let metric = Metric::of(alloc, tree)?;
    if points.len() as u64 != metric.leaves() || is_valid(&metric, side, points).is_err() {
        return Ok(None);
    }
    law_of_after(&metric);
    one_contours(&metric);
    let points = Sequence::from_vec(Vec::from_slice(alloc, points)?);
    let placement = Placement { side, points };
    Ok(Some(Regions::of(alloc, &metric, &placement)?))
}

// Whether the edge reaches the cell; a coordinate below 0 has wrapped to a great one.
fn is_in(regions: &Regions, side: u64, edge: u64, x: u64, y: u64) -> bool
    requires side { side ≡ regions.now.side }
    requires edge { IsEdge regions.now.tree edge }
{
    x < side && y < side && regions.reach(edge, x, y)
}

// The cells on the left and on the right of the unit segment.
fn beside(from: Point, to: Point) -> (Point, Point) {
    let Point { x, y } = from;
    if x < to.x {
        let below = y.wrapping_sub(1);
        (from, Point { x, y: below })
    } else if x > to.x {
        let below = y.wrapping_sub(1);
        (Point { x: to.x, y: below }, to)
    } else if y < to.y {
        let before = x.wrapping_sub(1);
        (Point { x: before, y }, from)
    } else {
        let before = x.wrapping_sub(1);
        (to, Point { x: before, y: to.y })
    }
}

// One unit on.
fn toward(from: Point, to: Point) -> Point {
    let Point { x, y } = from;
    if x < to.x {
        Point { x: x + 1, y }
    } else if x > to.x {
        Point { x: x - 1, y }
    } else if y < to.y {
        Point { x, y: y + 1 }
    } else {
        Point {
            x,
            y: y.saturating_sub(1),
        }
    }
}

// The number of unit segments from one point to the other, each of which has the region on its left alone.
fn steps(rt: &impl Abort, regions: &Regions, side: u64, edge: u64, from: Point, to: Point) -> u64
    requires side { side ≡ regions.now.side }
    requires edge { IsEdge regions.now.tree edge }
{
    let mut at = from;
    let mut count = 0_u64;
    for _ in 0..99 {
        if at == to {
            return count;
        }
        let next = toward(at, to);
        let (left, right) = beside(at, next);
        assert!(rt; is_in(regions, side, edge, left.x, left.y));
        assert!(rt; !is_in(regions, side, edge, right.x, right.y));
        count = count.wrapping_add(1);
        at = next;
    }
    assert!(rt; at == to);
    count
}

// The number of all unit segments of the boundary.
fn boundary(regions: &Regions, side: u64, edge: u64) -> u64
    requires small { side ≤ most_number }
    requires side { side ≡ regions.now.side }
    requires edge { IsEdge regions.now.tree edge }
{
    let mut count = 0_u64;
    for x in 0..side + 1 {
        for y in 0..side + 1 {
            let here = is_in(regions, side, edge, x, y);
            let below = is_in(regions, side, edge, x, y.wrapping_sub(1));
            let before = is_in(regions, side, edge, x.wrapping_sub(1), y);
            count = count.wrapping_add(u64::from(here != below));
            count = count.wrapping_add(u64::from(here != before));
        }
    }
    count
}

// The loops go over as many unit segments as there are, each with the region on its left.
fn compare(
    rt: &impl Abort,
    alloc: Global,
    regions: &Regions,
    side: u64,
    edge: u64,
) -> Result<(), Fail>
    requires small { side ≤ most_number }
    requires side { side ≡ regions.now.side }
    requires edge { IsEdge regions.now.tree edge }
{
    let mut count = 0_u64;
    for l in &contours(alloc, regions, edge)? {
        let points = l.points.as_slice();
        for (k, from) in points.iter().enumerate() {
            let to = match points.get(k + 1) {
                Some(to) => *to,
                None => points[0],
            };
            count = count.wrapping_add(steps(rt, regions, side, edge, *from, to));
        }
    }
    assert_eq!(rt; count, boundary(regions, side, edge), "{edge}");
    Ok(())
}

// Whether the edge's loops are these, each as its coordinates in turn.
fn are(alloc: Global, regions: &Regions, edge: u64, loops: &[&[u64]]) -> Result<bool, Fail>
    requires edge { IsEdge regions.now.tree edge }
{
    let found = contours(alloc, regions, edge)?;
    let mut same = found.len() == loops.len();
    for (l, wanted) in found.iter().zip(loops) {
        let points = l.points.as_slice();
        let mut numbers = Vec::new(alloc);
        for point in points {
            numbers.push(point.x)?;
            numbers.push(point.y)?;
        }
        same = same && numbers.as_slice() == *wanted;
    }
    Ok(same)
}

#[test]
fn two_twigs(rt: HostRuntime) -> Result<(), Fail> {
    let alloc = rt.alloc();
    let tree = twigs(alloc)?;
    let points = [
        Point { x: 0, y: 0 },
        Point { x: 0, y: 2 },
        Point { x: 6, y: 0 },
        Point { x: 6, y: 2 },
    ];
    let Some(regions) = placed(alloc, &tree, 6, &points)? else {
        return Err(Fail::from("not valid"));
    };
    let wanted: [[u64; 8]; 6] = [
        [0, 0, 3, 0, 3, 5, 0, 5],
        [3, 0, 6, 0, 6, 5, 3, 5],
        [0, 0, 1, 0, 1, 1, 0, 1],
        [0, 1, 1, 1, 1, 3, 0, 3],
        [5, 0, 6, 0, 6, 1, 5, 1],
        [5, 1, 6, 1, 6, 3, 5, 3],
    ];
    let count = tree.parents().len() as u64;
    for (k, one) in wanted.iter().enumerate() {
        let edge = k as u64 + 1;
        assert!(rt; edge < count);
        assert!(rt; are(alloc, &regions, edge, &[one.as_slice()])?, "{edge}");
    }
    Ok(())
}

#[test]
fn two_corners(rt: HostRuntime) -> Result<(), Fail> {
    let alloc = rt.alloc();
    let tree = corners(alloc)?;
    let points = [
        Point { x: 0, y: 4 },
        Point { x: 0, y: 0 },
        Point { x: 4, y: 4 },
    ];
    let Some(regions) = placed(alloc, &tree, 4, &points)? else {
        return Err(Fail::from("not valid"));
    };
    let first: [u64; 8] = [0, 0, 2, 0, 2, 2, 0, 2];
    let second: [u64; 8] = [2, 2, 4, 2, 4, 4, 2, 4];
    assert!(rt; 1 < tree.parents().len());
    assert!(rt; are(alloc, &regions, 1, &[first.as_slice(), second.as_slice()])?);
    Ok(())
}

#[test]
fn ring_with_a_hole(rt: HostRuntime) -> Result<(), Fail> {
    let alloc = rt.alloc();
    let tree = ring(alloc)?;
    let points = [
        Point { x: 9, y: 0 },
        Point { x: 2, y: 2 },
        Point { x: 6, y: 3 },
        Point { x: 5, y: 7 },
        Point { x: 1, y: 6 },
    ];
    let Some(regions) = placed(alloc, &tree, 9, &points)? else {
        return Err(Fail::from("not valid"));
    };
    assert!(rt; 1 < tree.parents().len());
    let outer: [u64; 24] = [
        0, 0, 4, 0, 4, 1, 8, 1, 8, 5, 7, 5, 7, 9, 3, 9, 3, 8, 0, 8, 0, 0, 0, 0,
    ];
    let hole: [u64; 8] = [3, 4, 3, 5, 4, 5, 4, 4];
    assert!(rt; are(alloc, &regions, 1, &[&outer[..20], hole.as_slice()])?);
    Ok(())
}

fn draw(state: u64) -> u64 {
    state.wrapping_mul(1_103_515_245).wrapping_add(12_345) % 2_147_483_648
}

// How many of the drawn placements are valid; their loops are compared with a plain look.
fn drawn(
    rt: &impl Abort,
    alloc: Global,
    tree: &Tree,
    leaves: usize,
    side: u64,
    seed: u64,
) -> Result<u64, Fail>
    requires { side ≤ 99 }
{
    let mut state = seed;
    let mut valid = 0_u64;
    for _ in 0..300 {
        let mut points = Vec::new(alloc);
        for _ in 0..leaves {
            let x = draw(state);
            let y = draw(x);
            state = y;
            points.push(Point {
                x: x / 65_536 % (side + 1),
                y: y / 65_536 % (side + 1),
            })?;
        }
        if let Some(regions) = placed(alloc, tree, side, &points)? {
            valid = valid.wrapping_add(1);
            for edge in 1..tree.parents().len() as u64 {
                compare(rt, alloc, &regions, side, edge)?;
            }
        }
    }
    Ok(valid)
}

#[test]
fn drawn_placements(rt: HostRuntime) -> Result<(), Fail> {
    let alloc = rt.alloc();
    assert!(rt; drawn(&rt, alloc, &twigs(alloc)?, 4, 9, 1)? > 9);
    assert!(rt; drawn(&rt, alloc, &corners(alloc)?, 3, 5, 2)? > 9);
    assert!(rt; drawn(&rt, alloc, &ring(alloc)?, 5, 8, 3)? > 9);
    Ok(())
}
