// Pieces and holes of worked placements, and of drawn ones beside their contours.
ghost use Rattle.std.specs.Prelude.{◌≡◌, ◌≤◌, IfOk, IfSome};
ghost use Rattle.bp_base.specs.Limits.{most_number};
ghost use Rattle.bp_base.specs.Tree.{IsEdge};

use bp_base::{Piece, Placement, Point, Sequence, Tree};
use bp_contour::contours;
use bp_metric::Metric;
use bp_pairs::is_valid;
use bp_pieces::*;
use bp_regions::Regions;
use bp_samples::tree;
use std::alloc::Global;
use std::process::Abort;
use std::test::Fail;

// r a 2/r b 2/a a1 1/a a2 1/b b1 1/b b2 1/
fn twigs(alloc: Global) -> Result<Tree, Fail> {
    Ok(tree(alloc, &[0, 0, 0, 1, 1, 2, 2], &[0, 2, 2, 1, 1, 1, 1])?)
}

// r a 1/r c 1/a p 1/a q 1/
fn corners(alloc: Global) -> Result<Tree, Fail> {
    Ok(tree(alloc, &[0, 0, 0, 1, 1], &[0, 1, 1, 1, 1])?)
}

// r a 1/r c 1/a p 1/a q 1/a s 1/a t 1/
fn ring(alloc: Global) -> Result<Tree, Fail> {
    Ok(tree(alloc, &[0, 0, 0, 1, 1, 1, 1], &[0, 1, 1, 1, 1, 1, 1])?)
}

// The regions of points that are valid at the side, or none.
fn placed(alloc: Global, tree: &Tree, side: u64, points: &[Point]) -> Result<Option<Regions>, Fail>
    requires side { side ≤ most_number }
    ensures { IfOk result (λ found. IfSome found (λ r. r ≡ record { tree = tree.now; side = side; points = points.now })) }
{
    let metric = Metric::of(alloc, tree)?;
    if points.len() as u64 != metric.leaves() || is_valid(&metric, side, points).is_err() {
        return Ok(None);
    }
    law_of_report(&metric);
    let points = Sequence::from_vec(Vec::from_slice(alloc, points)?);
    let placement = Placement { side, points };
    Ok(Some(Regions::of(alloc, &metric, &placement)?))
}

// Whether the parts are these, each as its place and its area.
fn are(parts: &[Piece], wanted: &[(u64, u64, u64)]) -> bool {
    let mut same = parts.len() == wanted.len();
    for (part, (x, y, area)) in parts.iter().zip(wanted) {
        same = same && part.at == Point { x: *x, y: *y } && part.area == *area;
    }
    same
}

// The edge has as many pieces and holes as loops.
fn compare(rt: &impl Abort, alloc: Global, regions: &Regions, edge: u64) -> Result<(), Fail>
    requires edge { IsEdge regions.now.tree edge }
{
    let found = report(alloc, regions, edge)?;
    let loops = contours(alloc, regions, edge)?;
    assert_eq!(rt;
        loops.len(),
        found.pieces.len().wrapping_add(found.holes.len()),
        "{edge}"
    );
    Ok(())
}

#[test]
fn two_twigs(rt: HostRuntime) -> Result<(), Fail> {
    let alloc = rt.alloc();
    let tree = twigs(alloc)?;
    let points = [
        Point { x: 0, y: 0 },
        Point { x: 0, y: 2 },
        Point { x: 6, y: 0 },
        Point { x: 6, y: 2 },
    ];
    let Some(regions) = placed(alloc, &tree, 6, &points)? else {
        return Err(Fail::from("not valid"));
    };
    let wanted = [
        (0, 0, 15),
        (3, 0, 15),
        (0, 0, 1),
        (0, 1, 2),
        (5, 0, 1),
        (5, 1, 2),
    ];
    let count = tree.parents().len() as u64;
    for (k, one) in wanted.iter().enumerate() {
        let edge = k as u64 + 1;
        assert!(rt; edge < count);
        let found = report(alloc, &regions, edge)?;
        assert!(rt; are(found.pieces.as_slice(), &[*one]), "{edge}");
        assert!(rt; are(found.holes.as_slice(), &[]), "{edge}");
    }
    Ok(())
}

#[test]
fn two_corners(rt: HostRuntime) -> Result<(), Fail> {
    let alloc = rt.alloc();
    let tree = corners(alloc)?;
    let points = [
        Point { x: 0, y: 4 },
        Point { x: 0, y: 0 },
        Point { x: 4, y: 4 },
    ];
    let Some(regions) = placed(alloc, &tree, 4, &points)? else {
        return Err(Fail::from("not valid"));
    };
    assert!(rt; 1 < tree.parents().len());
    let found = report(alloc, &regions, 1)?;
    assert!(rt; are(found.pieces.as_slice(), &[(0, 0, 4), (2, 2, 4)]));
    assert!(rt; are(found.holes.as_slice(), &[]));
    Ok(())
}

#[test]
fn ring_with_a_hole(rt: HostRuntime) -> Result<(), Fail> {
    let alloc = rt.alloc();
    let tree = ring(alloc)?;
    let points = [
        Point { x: 9, y: 0 },
        Point { x: 2, y: 2 },
        Point { x: 6, y: 3 },
        Point { x: 5, y: 7 },
        Point { x: 1, y: 6 },
    ];
    let Some(regions) = placed(alloc, &tree, 9, &points)? else {
        return Err(Fail::from("not valid"));
    };
    assert!(rt; 1 < tree.parents().len());
    let found = report(alloc, &regions, 1)?;
    assert!(rt; are(found.pieces.as_slice(), &[(0, 0, 60)]));
    assert!(rt; are(found.holes.as_slice(), &[(3, 4, 1)]));
    Ok(())
}

fn draw(state: u64) -> u64 {
    state.wrapping_mul(1_103_515_245).wrapping_add(12_345) % 2_147_483_648
}

// How many of the drawn placements are valid; of each edge the loops are counted.
fn drawn(
    rt: &impl Abort,
    alloc: Global,
    tree: &Tree,
    leaves: usize,
    side: u64,
    seed: u64,
) -> Result<u64, Fail>
    requires { side ≤ 99 }
{
    let mut state = seed;
    let mut valid = 0_u64;
    for _ in 0..300 {
        let mut points = Vec::new(alloc);
        for _ in 0..leaves {
            let x = draw(state);
            let y = draw(x);
            state = y;
            points.push(Point {
                x: x / 65_536 % (side + 1),
                y: y / 65_536 % (side + 1),
            })?;
        }
        if let Some(regions) = placed(alloc, tree, side, &points)? {
            valid = valid.wrapping_add(1);
            for edge in 1..tree.parents().len() as u64 {
                compare(rt, alloc, &regions, edge)?;
            }
        }
    }
    Ok(valid)
}

#[test]
fn drawn_placements(rt: HostRuntime) -> Result<(), Fail> {
    let alloc = rt.alloc();
    assert!(rt; drawn(&rt, alloc, &twigs(alloc)?, 4, 9, 1)? > 9);
    assert!(rt; drawn(&rt, alloc, &corners(alloc)?, 3, 5, 2)? > 9);
    assert!(rt; drawn(&rt, alloc, &ring(alloc)?, 5, 8, 3)? > 9);
    Ok(())
}
