// Least sides of worked figures.
ghost use Rattle.std.specs.Prelude.{IsTrue};
ghost use Rattle.bp_metric.specs.Metric.{IsSheet};
ghost use Rattle.bp_metric.specs.Samples.{is_sample};

use bp_arrangement::{Fact, Hint};
use bp_base::{Axis, NoMemory, Sheet};
use bp_learn::*;
use bp_metric::Metric;
use bp_samples::tree;
use std::alloc::Global;
use std::process::Abort;
use std::test::Fail;

// What is learned of a figure from a floor.
fn learned(
    alloc: Global,
    parents: &[u64],
    lengths: &[u64],
    sheet: Sheet,
    floor: u64,
    budget: u64,
) -> Result<Learned, NoMemory>
    requires tree { IsTrue (is_sample parents.now lengths.now) }
    requires sheet { IsSheet sheet }
{
    let tree = tree(alloc, parents, lengths)?;
    let metric = Metric::on(alloc, &tree, sheet)?;
    learn(alloc, &metric, floor, budget)
}

// Side and bound have met there; where the floor is below, the last lemma has no facts.
fn is_met(rt: &impl Abort, run: &Learned, floor: u64, side: u64) {
    assert_eq!(rt; run.placement.side, side);
    assert_eq!(rt; run.bound, side);
    match &run.proof {
        None => assert_eq!(rt; floor, side),
        Some(proof) => {
            assert_eq!(rt; proof.bound, side);
            assert!(rt; proof.len() > 0);
            assert!(rt; proof.facts(proof.len().saturating_sub(1)).is_empty());
        }
    }
}

#[test]
fn stars(rt: HostRuntime) -> Result<(), Fail> {
    let alloc = rt.alloc();
    let (parents, lengths) = ([0, 0, 0, 0, 0, 0], [0, 2, 2, 2, 1, 1]);
    let square = learned(alloc, &parents, &lengths, Sheet::Square, 4, 1000)?;
    is_met(&rt, &square, 4, 5);
    let narrow = Sheet::Strip { width: 4 };
    is_met(
        &rt,
        &learned(alloc, &parents, &lengths, narrow, 4, 1000)?,
        4,
        5,
    );
    let wide = Sheet::Strip { width: 5 };
    is_met(
        &rt,
        &learned(alloc, &parents, &lengths, wide, 4, 1000)?,
        4,
        4,
    );
    let line = Sheet::Strip { width: 0 };
    is_met(
        &rt,
        &learned(alloc, &[0; 5], &[0, 1, 1, 1, 1], line, 0, 1000)?,
        0,
        6,
    );
    Ok(())
}

const BEETLE: [u64; 12] = [0, 0, 1, 1, 1, 0, 0, 0, 0, 0, 0, 0];

const BEETLE_LENGTHS: [u64; 12] = [0, 3, 4, 4, 2, 6, 6, 6, 6, 6, 6, 5];

#[test]
fn beetle(rt: HostRuntime) -> Result<(), Fail> {
    let alloc = rt.alloc();
    let run = learned(alloc, &BEETLE, &BEETLE_LENGTHS, Sheet::Square, 24, 100_000)?;
    is_met(&rt, &run, 24, 25);
    // six legs alike, in a row of swaps
    let swap = run.swaps.as_slice().first().ok_or("no swap")?;
    assert_eq!(rt; swap.as_slice().len(), 1);
    let short = learned(alloc, &BEETLE, &BEETLE_LENGTHS, Sheet::Square, 24, 1)?;
    assert!(rt; short.conflicts >= 1);
    assert!(rt; short.placement.side >= 25 && short.bound >= 24);
    Ok(())
}

// The whole proof that two leaves of lengths 1 and 2 need a side of 3: the pair has no order below it.
#[test]
fn two_leaves(rt: HostRuntime) -> Result<(), Fail> {
    let alloc = rt.alloc();
    let run = learned(alloc, &[0, 0, 0], &[0, 1, 2], Sheet::Square, 0, 10)?;
    is_met(&rt, &run, 0, 3);
    let proof = run.proof.as_ref().ok_or("no proof")?;
    assert_eq!(rt; (run.corner.i, run.corner.j), (1, 2));
    let hint = proof.hints(0).first().ok_or("no hint")?;
    assert!(rt; matches!(hint, Hint::Pair { pair } if pair.i == 1 && pair.j == 2));
    let first = Fact::Before {
        axis: Axis::X,
        first: 1,
        second: 2,
    };
    assert!(rt; !proof.facts(0).contains(&first));
    Ok(())
}

// The tree of 8 leaves that the generator makes from the seed 1. Its first placement has side 29: what the search finds lowers its limit.
const MADE: [u64; 11] = [0, 0, 0, 0, 3, 3, 3, 5, 5, 3, 5];

const MADE_LENGTHS: [u64; 11] = [0, 9, 8, 2, 3, 7, 4, 5, 6, 1, 3];

#[test]
fn limit_lowered(rt: HostRuntime) -> Result<(), Fail> {
    let alloc = rt.alloc();
    let run = learned(alloc, &MADE, &MADE_LENGTHS, Sheet::Square, 24, 1000)?;
    is_met(&rt, &run, 24, 28);
    Ok(())
}
