ghost use Rattle.std.specs.Prelude.{◌≤◌};
ghost use Rattle.bp_base.specs.Limits.{most_budget, most_hands};
ghost use Rattle.bp_document.specs.Ranges.{IsDocument};
ghost use Rattle.bp_metric.specs.Metric.{IsSheet};

use bp_base::{Failed, MemSink, OpenGate, Sheet};
use bp_design::{SteadyDesign, design, replayed, steadied};
use bp_document::{Document, write_document};
use bp_metric::Metric;
use bp_tree::read_tree;
use std::alloc::Global;
use std::test::Fail;
use std::thread::Threads;

// The text of the design of a tree with this budget.
fn designed<R: Threads + Sync>(
    rt: &R,
    alloc: Global,
    tree: &[u8],
    sheet: Sheet,
    budget: u64,
) -> Result<Vec<u8>, Fail>
    requires sheet { IsSheet sheet }
    requires budget { budget ≤ most_budget }
{
    let Ok(tree) = read_tree(alloc, tree) else {
        return Err(Fail::from("no tree"));
    };
    let metric = Metric::on(alloc, &tree, sheet)?;
    written(alloc, &design(rt, alloc, &metric, 1, budget, &OpenGate)?)
}

// The same where so many hands replay the search by the draws from the seed 5.
fn replayed_by(
    alloc: Global,
    tree: &[u8],
    sheet: Sheet,
    hands: u64,
    budget: u64,
) -> Result<Vec<u8>, Fail>
    requires sheet { IsSheet sheet }
    requires hands { (1 ≤ hands) × (hands ≤ most_hands) }
    requires budget { (1 ≤ budget) × (budget ≤ most_budget) }
{
    let Ok(tree) = read_tree(alloc, tree) else {
        return Err(Fail::from("no tree"));
    };
    let metric = Metric::on(alloc, &tree, sheet)?;
    written(alloc, &replayed(alloc, &metric, hands, budget, 5)?)
}

// The same with the steady points, or nothing where their budget is too small.
fn steadied_by<R: Threads + Sync>(
    rt: &R,
    alloc: Global,
    tree: &[u8],
    budget: u64,
) -> Result<Vec<u8>, Fail> {
    let Ok(tree) = read_tree(alloc, tree) else {
        return Err(Fail::from("no tree"));
    };
    let metric = Metric::of(alloc, &tree)?;
    let document = design(rt, alloc, &metric, 1, 50_000, &OpenGate)?;
    match steadied(alloc, &metric, document, budget)? {
        SteadyDesign::Found(document) => written(alloc, &document),
        SteadyDesign::Unsteady => Ok(Vec::new(alloc)),
    }
}

fn written(alloc: Global, document: &Document) -> Result<Vec<u8>, Fail>
    requires { IsDocument document.now }
{
    let mut sink = MemSink::new(alloc, 16_777_216, 4096, Vec::new(alloc))?;
    match write_document(document, &mut sink) {
        Ok(()) => Ok(sink.bytes),
        Err(Failed) => Err(Fail::from("no text")),
    }
}

const STAR: &[u8] = b"c p 2\nc q 2\nc r 2\nc s 1\nc t 1\n";

const FOUR: &[u8] = b"c p 1\nc q 1\nc r 1\nc s 1\n";

const MET: &[u8] =
    b"boxpleat 2\nsheet square\nedges 4\nedge c p 1\nedge c q 1\nedge c r 1\nedge c s 1\nside 2\nbound 2\npoint p 0 0\npoint q 0 2\npoint r 2 0\npoint s 2 2\nfloor 2 2 1 2 3 4\nproof none\nend\n";

const SPENT: &[u8] =
    b"boxpleat 2\nsheet square\nedges 5\nedge c p 2\nedge c q 2\nedge c r 2\nedge c s 1\nedge c t 1\nside 5\nbound 4\npoint p 0 0\npoint q 0 4\npoint r 4 0\npoint s 3 3\npoint t 3 5\nfloor 2 4 1 2 3 4 5\nproof 2\n0 split 1 2\n1 open x 1 2\nend\n";

const WHOLE: &[u8] =
    b"boxpleat 2\nsheet square\nedges 5\nedge c p 2\nedge c q 2\nedge c r 2\nedge c s 1\nedge c t 1\nside 5\nbound 5\npoint p 0 0\npoint q 0 4\npoint r 4 0\npoint s 3 3\npoint t 3 5\nfloor 2 4 1 2 3 4 5\nproof 257\n0 split 1 2\n1 split 1 3\n";

const STRIP: &[u8] =
    b"boxpleat 2\nsheet strip 4\nedges 5\nedge c p 2\nedge c q 2\nedge c r 2\nedge c s 1\nedge c t 1\nside 5\nbound 5\npoint p 0 0\npoint q 4 0\npoint r 0 4\npoint s 3 3\npoint t 3 5\nfloor 4 4 1 2 3\nproof ";

#[test]
fn stars_designed(rt: HostRuntime) -> Result<(), Fail> {
    let alloc = rt.alloc();
    let strip = Sheet::Strip { width: 4 };
    let met = designed(&rt, alloc, FOUR, Sheet::Square, 1)?;
    assert_eq!(rt; met.as_slice(), MET);
    let spent = designed(&rt, alloc, STAR, Sheet::Square, 1)?;
    assert_eq!(rt; spent.as_slice(), SPENT);
    let whole = designed(&rt, alloc, STAR, Sheet::Square, 50_000)?;
    assert!(rt; whole.starts_with(WHOLE));
    let on_strip = designed(&rt, alloc, STAR, strip, 200_000)?;
    assert!(rt; on_strip.starts_with(STRIP));
    Ok(())
}

const BEGUN: &[u8] =
    b"boxpleat 2\nsheet square\nedges 5\nedge c p 2\nedge c q 2\nedge c r 2\nedge c s 1\nedge c t 1\nside 5\nbound 5\n";

const STRIP_BEGUN: &[u8] =
    b"boxpleat 2\nsheet strip 4\nedges 5\nedge c p 2\nedge c q 2\nedge c r 2\nedge c s 1\nedge c t 1\nside 5\nbound 5\n";

#[test]
fn stars_replayed(rt: HostRuntime) -> Result<(), Fail> {
    let alloc = rt.alloc();
    let strip = Sheet::Strip { width: 4 };
    let met = replayed_by(alloc, FOUR, Sheet::Square, 4, 1)?;
    assert_eq!(rt; met.as_slice(), MET);
    let spent = replayed_by(alloc, STAR, Sheet::Square, 4, 1)?;
    assert_eq!(rt; spent.as_slice(), SPENT);
    let rows = [
        (Sheet::Square, 1, BEGUN),
        (Sheet::Square, 4, BEGUN),
        (Sheet::Square, 16, BEGUN),
        (strip, 4, STRIP_BEGUN),
    ];
    for (sheet, hands, begun) in rows {
        let text = replayed_by(alloc, STAR, sheet, hands, 50_000)?;
        assert!(rt; text.starts_with(begun));
    }
    Ok(())
}

const FIVE: &[u8] = b"c p 1\nc q 1\nc r 1\nc s 1\nc t 1\n";

const STEADY: &[u8] =
    b"boxpleat 2\nsheet square\nedges 5\nedge c p 1\nedge c q 1\nedge c r 1\nedge c s 1\nedge c t 1\nside 4\nbound 4\npoint p 0 0\npoint q 0 2\npoint r 0 4\npoint s 2 0\npoint t 2 2\nfloor 2 4 1 2 3 4 5\nproof none\nend\n";

#[test]
fn star_steadied(rt: HostRuntime) -> Result<(), Fail> {
    let alloc = rt.alloc();
    let steady = steadied_by(&rt, alloc, FIVE, 10_000_000)?;
    assert_eq!(rt; steady.as_slice(), STEADY);
    assert_eq!(rt; steadied_by(&rt, alloc, FIVE, 1)?.len(), 0);
    Ok(())
}
