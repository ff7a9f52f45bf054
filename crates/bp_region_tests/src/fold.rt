// Drawings of worked placements, and of small ones beside a plain look at each unit segment.
ghost use Rattle.std.specs.Prelude.{◌≡◌, ◌≤◌};
ghost use Rattle.bp_base.specs.Limits.{most_number};

use bp_base::{Axis, MemSink, Placement, Point, Sequence, Tree};
use bp_fold::*;
use bp_metric::Metric;
use bp_pairs::is_valid;
use bp_regions::Regions;
use bp_samples::tree;
use std::alloc::Global;
use std::process::Abort;
use std::test::Fail;

// c p 1/c q 1/c r 1/c s 1/
fn star_of_four(alloc: Global) -> Result<Tree, Fail> {
    Ok(tree(alloc, &[0, 0, 0, 0, 0], &[0, 1, 1, 1, 1])?)
}

// c p 3/c q 4/
fn star_3_4(alloc: Global) -> Result<Tree, Fail> {
    Ok(tree(alloc, &[0, 0, 0], &[0, 3, 4])?)
}

// r a 1/r c 1/a p 1/a q 1/
fn two_corners(alloc: Global) -> Result<Tree, Fail> {
    Ok(tree(alloc, &[0, 0, 0, 1, 1], &[0, 1, 1, 1, 1])?)
}

// The regions of points, where these are valid at the side.
fn placed(alloc: Global, tree: &Tree, side: u64, points: &[Point]) -> Result<Option<Regions>, Fail>
    requires side { side ≤ most_number }
{
    let metric = Metric::of(alloc, tree)?;
    if points.len() as u64 != metric.leaves() || is_valid(&metric, side, points).is_err() {
        return Ok(None);
    }
    let points = Sequence::from_vec(Vec::from_slice(alloc, points)?);
    let regions = Regions::of(alloc, &metric, &Placement { side, points })?;
    Ok(Some(regions))
}

fn drawn(alloc: Global, tree: &Tree, side: u64, points: &[Point]) -> Result<Drawing, Fail>
    requires side { side ≤ most_number }
{
    match placed(alloc, tree, side, points)? {
        Some(regions) => Ok(draw(alloc, &regions)?),
        None => Err(Fail::from("not valid")),
    }
}

#[test]
fn star_of_four_text(rt: HostRuntime) -> Result<(), Fail> {
    let alloc = rt.alloc();
    let points = [
        Point { x: 0, y: 0 },
        Point { x: 0, y: 2 },
        Point { x: 2, y: 0 },
        Point { x: 2, y: 2 },
    ];
    let drawing = drawn(alloc, &star_of_four(alloc)?, 2, &points)?;
    let mut sink = MemSink::new(alloc, 1000, 7, Vec::new(alloc))?;
    let _ = write_fold(&drawing, &mut sink);
    assert_eq!(rt;
        sink.bytes.as_slice(),
        b"{\"file_spec\":1.1,\"file_creator\":\"boxpleat\",\"file_classes\":[\"singleModel\"],\"frame_classes\":[\"creasePattern\"],\"frame_attributes\":[\"2D\"],\"frame_unit\":\"unit\",\"vertices_coords\":[[0,0],[1,0],[2,0],[0,1],[1,1],[2,1],[0,2],[1,2],[2,2]],\"edges_vertices\":[[0,1],[0,3],[1,2],[1,4],[2,5],[3,4],[3,6],[4,5],[4,7],[5,8],[6,7],[7,8]],\"edges_assignment\":[\"B\",\"B\",\"B\",\"U\",\"B\",\"U\",\"B\",\"U\",\"U\",\"B\",\"B\",\"B\"]}\n".as_slice()
    );
    Ok(())
}

#[test]
fn star_3_4_letters(rt: HostRuntime) -> Result<(), Fail> {
    let alloc = rt.alloc();
    let points = [Point { x: 0, y: 0 }, Point { x: 0, y: 7 }];
    let drawing = drawn(alloc, &star_3_4(alloc)?, 7, &points)?;
    let vertices = [
        Point { x: 0, y: 0 },
        Point { x: 3, y: 0 },
        Point { x: 7, y: 0 },
        Point { x: 0, y: 3 },
        Point { x: 3, y: 3 },
        Point { x: 4, y: 3 },
        Point { x: 0, y: 7 },
        Point { x: 4, y: 7 },
        Point { x: 7, y: 7 },
    ];
    assert_eq!(rt; drawing.vertices.as_slice(), vertices.as_slice());
    let mut borders = 0_u32;
    for letter in drawing.letters.as_slice() {
        borders = borders.wrapping_add(u32::from(*letter == Letter::Boundary));
    }
    assert_eq!(rt; borders, 7);
    assert_eq!(rt; drawing.letters.len(), 11);
    Ok(())
}

#[test]
fn two_corners_meet(rt: HostRuntime) -> Result<(), Fail> {
    let alloc = rt.alloc();
    let points = [
        Point { x: 0, y: 4 },
        Point { x: 0, y: 0 },
        Point { x: 4, y: 4 },
    ];
    let drawing = drawn(alloc, &two_corners(alloc)?, 4, &points)?;
    let vertices = drawing.vertices.as_slice();
    let mut meeting = 0_u32;
    for (edge, letter) in drawing
        .edges
        .as_slice()
        .iter()
        .zip(drawing.letters.as_slice())
    {
        for end in [edge.from, edge.to] {
            let middle = vertices.get(end as usize) == Some(&Point { x: 2, y: 2 });
            if middle && *letter == Letter::Unassigned {
                meeting = meeting.wrapping_add(1);
            }
        }
    }
    assert_eq!(rt; meeting, 4);
    Ok(())
}

// The owner of each unit cell, row by row.
fn owners_of(alloc: Global, regions: &Regions, side: u64) -> Result<Vec<Option<u64>>, Fail>
    requires { side ≡ regions.now.side }
{
    let mut owners = Vec::new(alloc);
    for y in 0..side {
        for x in 0..side {
            owners.push(regions.owner(x, y))?;
        }
    }
    Ok(owners)
}

// Unit cells with their owners.
#[derive(Drop)]
struct Cells<'a> {
    owners: &'a [Option<u64>],
    side: u64,
}

impl Cells<'_> {
    fn owner(&self, x: u64, y: u64) -> Option<u64> {
        let at = y.wrapping_mul(self.side).wrapping_add(x);
        match self.owners.get(at as usize) {
            Some(owner) => *owner,
            None => None,
        }
    }

    fn level(&self, x: u64, y: u64) -> bool {
        if x >= self.side {
            return false;
        }
        y == 0 || y == self.side || self.owner(x, y - 1) != self.owner(x, y)
    }

    fn upright(&self, x: u64, y: u64) -> bool {
        if y >= self.side {
            return false;
        }
        x == 0 || x == self.side || self.owner(x - 1, y) != self.owner(x, y)
    }

    fn is_vertex(&self, x: u64, y: u64) -> bool {
        let left = x > 0 && self.level(x - 1, y);
        let lower = y > 0 && self.upright(x, y - 1);
        match (left, self.level(x, y), lower, self.upright(x, y)) {
            (false, false, false, false) => false,
            (true, true, false, false) => false,
            (false, false, true, true) => false,
            _ => true,
        }
    }

    fn vertices(&self, alloc: Global) -> Result<Vec<Point>, Fail> {
        let mut vertices = Vec::new(alloc);
        for y in 0..self.side.saturating_add(1) {
            for x in 0..self.side.saturating_add(1) {
                if self.is_vertex(x, y) {
                    vertices.push(Point { x, y })?;
                }
            }
        }
        Ok(vertices)
    }

    fn runs_right(&self, p: Point, q: Point) -> bool {
        for x in p.x..q.x {
            if !self.level(x, p.y) || x > p.x && self.is_vertex(x, p.y) {
                return false;
            }
        }
        p.y == q.y && p.x < q.x
    }

    fn runs_up(&self, p: Point, q: Point) -> bool {
        for y in p.y..q.y {
            if !self.upright(p.x, y) || y > p.y && self.is_vertex(p.x, y) {
                return false;
            }
        }
        p.x == q.x && p.y < q.y
    }

    fn letter(&self, p: Point, q: Point) -> Letter {
        let level = p.y == q.y && (p.y == 0 || p.y == self.side);
        let upright = p.x == q.x && (p.x == 0 || p.x == self.side);
        if level || upright {
            Letter::Boundary
        } else {
            Letter::Unassigned
        }
    }
}

// The regions' side, where the last cut lies.
fn side_of(regions: &Regions) -> u64
    ensures { result ≡ regions.now.side }
{
    match regions.cuts(Axis::X).last() {
        Some(last) => *last,
        None => 0,
    }
}

// The drawing beside a plain look at each unit segment.
fn compare(rt: &impl Abort, alloc: Global, regions: &Regions) -> Result<(), Fail> {
    let side = side_of(regions);
    let owners = owners_of(alloc, regions, side)?;
    let cells = Cells {
        owners: &owners,
        side,
    };
    let drawing = draw(alloc, regions)?;
    let vertices = cells.vertices(alloc)?;
    let mut edges = Vec::new(alloc);
    let mut letters = Vec::new(alloc);
    for (from, p) in vertices.iter().enumerate() {
        for (to, q) in vertices.iter().enumerate() {
            if from < to && (cells.runs_right(*p, *q) || cells.runs_up(*p, *q)) {
                edges.push(Edge {
                    from: from as u64,
                    to: to as u64,
                })?;
                letters.push(cells.letter(*p, *q))?;
            }
        }
    }
    assert_eq!(rt; drawing.vertices.as_slice(), vertices.as_slice());
    assert_eq!(rt; drawing.edges.as_slice(), edges.as_slice());
    assert_eq!(rt; drawing.letters.as_slice(), letters.as_slice());
    Ok(())
}

// The next draw.
fn drawn_next(state: &mut u64) -> u64 {
    *state = state.wrapping_mul(1103515245).wrapping_add(12345) % 2147483648;
    *state / 65536
}

// Points that are drawn; how many of the placements were valid and were compared.
fn compare_drawn(
    rt: &impl Abort,
    alloc: Global,
    tree: &Tree,
    side: u64,
    seed: u64,
) -> Result<u64, Fail>
    requires side { side ≤ most_number }
{
    let leaves = Metric::of(alloc, tree)?.leaves();
    let mut state = seed;
    let mut count = 0_u64;
    for _ in 0..60 {
        let mut points = Vec::new(alloc);
        for _ in 0..leaves {
            let x = drawn_next(&mut state) % (side + 1);
            let y = drawn_next(&mut state) % (side + 1);
            points.push(Point { x, y })?;
        }
        if let Some(regions) = placed(alloc, tree, side, &points)? {
            compare(rt, alloc, &regions)?;
            count = count.saturating_add(1);
        }
    }
    Ok(count)
}

#[test]
fn drawn_placements(rt: HostRuntime) -> Result<(), Fail> {
    let alloc = rt.alloc();
    let mut count = compare_drawn(&rt, alloc, &two_corners(alloc)?, 5, 1)?;
    count = count.saturating_add(compare_drawn(&rt, alloc, &two_corners(alloc)?, 8, 2)?);
    count = count.saturating_add(compare_drawn(&rt, alloc, &star_of_four(alloc)?, 5, 3)?);
    count = count.saturating_add(compare_drawn(&rt, alloc, &star_3_4(alloc)?, 9, 4)?);
    assert!(rt; count > 50);
    Ok(())
}
