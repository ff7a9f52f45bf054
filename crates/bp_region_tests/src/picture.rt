// Pictures of worked placements, whole texts, and sinks that fail.
ghost use Rattle.std.specs.Prelude.{◌≤◌};
ghost use Rattle.bp_base.specs.Limits.{most_number};

use bp_base::{MemSink, Placement, Point, Sequence, Tree};
use bp_metric::Metric;
use bp_pairs::is_valid;
use bp_picture::*;
use bp_regions::Regions;
use bp_samples::tree;
use std::alloc::Global;
use std::process::Abort;
use std::test::Fail;

// a b 1/a c 1/a d 1/a e 1/
fn star_of_four(alloc: Global) -> Result<Tree, Fail> {
    Ok(tree(alloc, &[0, 0, 0, 0, 0], &[0, 1, 1, 1, 1])?)
}

// a b 2/a c 2/b d 1/b e 1/c f 1/c g 1/
fn twigs(alloc: Global) -> Result<Tree, Fail> {
    Ok(tree(alloc, &[0, 0, 0, 1, 1, 2, 2], &[0, 2, 2, 1, 1, 1, 1])?)
}

// a b 1/a c 1/b d 1/b e 1/b f 1/b g 1/
fn ring(alloc: Global) -> Result<Tree, Fail> {
    Ok(tree(alloc, &[0, 0, 0, 1, 1, 1, 1], &[0, 1, 1, 1, 1, 1, 1])?)
}

const CORNERS: [Point; 4] = [
    Point { x: 0, y: 0 },
    Point { x: 0, y: 2 },
    Point { x: 2, y: 0 },
    Point { x: 2, y: 2 },
];

// Writes the picture of points that are valid at the side.
fn write(
    alloc: Global,
    tree: &Tree,
    side: u64,
    bound: u64,
    points: &[Point],
    sink: &mut MemSink,
) -> Result<bool, Fail>
    requires side { side ≤ most_number }
{
    let metric = Metric::of(alloc, tree)?;
    if points.len() as u64 != metric.leaves() || is_valid(&metric, side, points).is_err() {
        return Err(Fail::from("not valid"));
    }
    law_of_fills(tree);
    let points = Sequence::from_vec(Vec::from_slice(alloc, points)?);
    let placement = Placement { side, points };
    let regions = Regions::of(alloc, &metric, &placement)?;
    one_picture(&metric);
    let found = outlines(alloc, &regions)?;
    Ok(write_picture(&metric, &placement, bound, &found, sink).is_ok())
}

#[test]
fn star_of_four_text(rt: HostRuntime) -> Result<(), Fail> {
    let alloc = rt.alloc();
    let mut sink = MemSink::new(alloc, 10000, 7, Vec::new(alloc))?;
    let done = write(alloc, &star_of_four(alloc)?, 2, 2, &CORNERS, &mut sink)?;
    assert!(rt; done);
    assert_eq!(rt; sink.bytes.as_slice(), STAR.as_slice());
    Ok(())
}

#[test]
fn two_twigs_text(rt: HostRuntime) -> Result<(), Fail> {
    let alloc = rt.alloc();
    let points = [
        Point { x: 0, y: 0 },
        Point { x: 0, y: 2 },
        Point { x: 6, y: 0 },
        Point { x: 6, y: 2 },
    ];
    let mut sink = MemSink::new(alloc, 10000, 500, Vec::new(alloc))?;
    let done = write(alloc, &twigs(alloc)?, 6, 6, &points, &mut sink)?;
    assert!(rt; done);
    assert_eq!(rt; sink.bytes.as_slice(), TWIGS.as_slice());
    Ok(())
}

// The hole is the second loop of the path of edge b.
#[test]
fn ring_has_a_hole(rt: HostRuntime) -> Result<(), Fail> {
    let alloc = rt.alloc();
    let points = [
        Point { x: 9, y: 0 },
        Point { x: 2, y: 2 },
        Point { x: 6, y: 3 },
        Point { x: 5, y: 7 },
        Point { x: 1, y: 6 },
    ];
    let mut sink = MemSink::new(alloc, 10000, 500, Vec::new(alloc))?;
    let done = write(alloc, &ring(alloc)?, 9, 3, &points, &mut sink)?;
    assert!(rt; done);
    assert!(rt; sink.bytes.as_slice().starts_with(RING.as_slice()));
    Ok(())
}

// Where each call fails in turn, a front of the text was written.
#[test]
fn sinks_that_fail(rt: HostRuntime) -> Result<(), Fail> {
    let alloc = rt.alloc();
    let tree = star_of_four(alloc)?;
    for call in 1..40 {
        let mut sink = MemSink::new(alloc, 10000, 500, Vec::from_array(alloc, [call])?)?;
        let done = write(alloc, &tree, 2, 2, &CORNERS, &mut sink)?;
        assert!(rt; !done);
        assert_eq!(rt; sink.faults, 1);
        assert!(rt; sink.bytes.len() < STAR.len());
        assert!(rt; STAR.as_slice().starts_with(sink.bytes.as_slice()));
    }
    Ok(())
}

const STAR: &[u8; 1318] =
    b"<svg xmlns=\"http://www.w3.org/2000/svg\" width=\"840\" height=\"840\" viewBox=\"-120 -120 2240 2240\">\n<title>side 2 bound 2</title>\n<g transform=\"scale(1000)\">\n<rect width=\"2\" height=\"2\" fill=\"#fff\"/>\n<path fill=\"rgb(247,210,170)\" fill-rule=\"evenodd\" d=\"M0 2 1 2 1 1 0 1 Z\"><title>b</title></path>\n<path fill=\"rgb(231,242,150)\" fill-rule=\"evenodd\" d=\"M0 1 1 1 1 0 0 0 Z\"><title>c</title></path>\n<path fill=\"rgb(255,210,130)\" fill-rule=\"evenodd\" d=\"M1 2 2 2 2 1 1 1 Z\"><title>d</title></path>\n<path fill=\"rgb(239,226,190)\" fill-rule=\"evenodd\" d=\"M1 1 2 1 2 0 1 0 Z\"><title>e</title></path>\n<g fill=\"none\" pointer-events=\"none\">\n<path stroke=\"#000\" stroke-opacity=\"0.1\" stroke-width=\"0.002\" d=\"M1 0V2M0 1H2\"/>\n<path stroke=\"#2f4858\" stroke-width=\"0.004\" d=\"M0 2 1 2 1 1 0 1 ZM0 1 1 1 1 0 0 0 ZM1 2 2 2 2 1 1 1 ZM1 1 2 1 2 0 1 0 Z\"/>\n<rect width=\"2\" height=\"2\" stroke=\"#1b2a33\" stroke-width=\"0.008\"/>\n</g>\n</g>\n<g fill=\"#1b2a33\" font-family=\"monospace\" text-anchor=\"middle\" pointer-events=\"none\">\n<circle cx=\"0\" cy=\"2000\" r=\"14\"/><text x=\"500\" y=\"1972\" font-size=\"48\">b</text>\n<circle cx=\"0\" cy=\"0\" r=\"14\"/><text x=\"500\" y=\"61\" font-size=\"48\">c</text>\n<circle cx=\"2000\" cy=\"2000\" r=\"14\"/><text x=\"1500\" y=\"1972\" font-size=\"48\">d</text>\n<circle cx=\"2000\" cy=\"0\" r=\"14\"/><text x=\"1500\" y=\"61\" font-size=\"48\">e</text>\n</g>\n</svg>\n";

const TWIGS: &[u8; 1610] =
    b"<svg xmlns=\"http://www.w3.org/2000/svg\" width=\"840\" height=\"840\" viewBox=\"-360 -360 6720 6720\">\n<title>side 6 bound 6</title>\n<g transform=\"scale(1000)\">\n<rect width=\"6\" height=\"6\" fill=\"#fff\"/>\n<path fill=\"rgb(158,210,242)\" fill-rule=\"evenodd\" d=\"M0 6 3 6 3 1 0 1 Z\"><title>b</title></path>\n<path fill=\"rgb(194,182,232)\" fill-rule=\"evenodd\" d=\"M3 6 6 6 6 1 3 1 Z\"><title>c</title></path>\n<path fill=\"rgb(255,210,130)\" fill-rule=\"evenodd\" d=\"M0 6 1 6 1 5 0 5 Z\"><title>d</title></path>\n<path fill=\"rgb(239,226,190)\" fill-rule=\"evenodd\" d=\"M0 5 1 5 1 3 0 3 Z\"><title>e</title></path>\n<path fill=\"rgb(231,194,170)\" fill-rule=\"evenodd\" d=\"M5 6 6 6 6 5 5 5 Z\"><title>f</title></path>\n<path fill=\"rgb(247,226,150)\" fill-rule=\"evenodd\" d=\"M5 5 6 5 6 3 5 3 Z\"><title>g</title></path>\n<g fill=\"none\" pointer-events=\"none\">\n<path stroke=\"#000\" stroke-opacity=\"0.1\" stroke-width=\"0.006\" d=\"M1 0V6M0 1H6M2 0V6M0 2H6M3 0V6M0 3H6M4 0V6M0 4H6M5 0V6M0 5H6\"/>\n<path stroke=\"#2f4858\" stroke-width=\"0.012\" d=\"M0 6 3 6 3 1 0 1 ZM3 6 6 6 6 1 3 1 ZM0 6 1 6 1 5 0 5 ZM0 5 1 5 1 3 0 3 ZM5 6 6 6 6 5 5 5 ZM5 5 6 5 6 3 5 3 Z\"/>\n<rect width=\"6\" height=\"6\" stroke=\"#1b2a33\" stroke-width=\"0.024\"/>\n</g>\n</g>\n<g fill=\"#1b2a33\" font-family=\"monospace\" text-anchor=\"middle\" pointer-events=\"none\">\n<circle cx=\"0\" cy=\"6000\" r=\"42\"/><text x=\"500\" y=\"5916\" font-size=\"144\">d</text>\n<circle cx=\"0\" cy=\"4000\" r=\"42\"/><text x=\"500\" y=\"3916\" font-size=\"144\">e</text>\n<circle cx=\"6000\" cy=\"6000\" r=\"42\"/><text x=\"5500\" y=\"5916\" font-size=\"144\">f</text>\n<circle cx=\"6000\" cy=\"4000\" r=\"42\"/><text x=\"5500\" y=\"3916\" font-size=\"144\">g</text>\n</g>\n</svg>\n";

// Up to the end of the first path.
const RING: &[u8; 336] =
    b"<svg xmlns=\"http://www.w3.org/2000/svg\" width=\"840\" height=\"840\" viewBox=\"-540 -540 10080 10080\">\n<title>side 9 bound 3</title>\n<g transform=\"scale(1000)\">\n<rect width=\"9\" height=\"9\" fill=\"#fff\"/>\n<path fill=\"rgb(158,210,242)\" fill-rule=\"evenodd\" d=\"M0 9 4 9 4 8 8 8 8 4 7 4 7 0 3 0 3 1 0 1 ZM3 5 3 4 4 4 4 5 Z\"><title>b</title></path>\n";
