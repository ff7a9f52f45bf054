// Answers of worked figures.
ghost use Rattle.std.specs.Prelude.{IsTrue};
ghost use Rattle.bp_metric.specs.Metric.{IsSheet};
ghost use Rattle.bp_metric.specs.Samples.{is_sample};

use bp_base::{NoMemory, Sheet};
use bp_metric::Metric;
use bp_samples::tree;
use bp_solve::*;
use std::alloc::Global;
use std::fmt::Debug;
use std::process::Abort;
use std::test::Fail;

fn solved(
    alloc: Global,
    parents: &[u64],
    lengths: &[u64],
    sheet: Sheet,
    budget: u64,
) -> Result<Solved, NoMemory>
    requires tree { IsTrue (is_sample parents.now lengths.now) }
    requires sheet { IsSheet sheet }
{
    let tree = tree(alloc, parents, lengths)?;
    let metric = Metric::on(alloc, &tree, sheet);
    // Dropped by a call, as other large values below: the proof of a drop in place goes through all that the value holds, branch by branch.
    drop(tree);
    let metric = metric?;
    let answer = solve(alloc, &metric, budget);
    drop(metric);
    answer
}

// The proof of a function grows with each `assert_eq!` in it, so it is called.
fn is<T: Copy + PartialEq + Debug>(rt: &impl Abort, value: T, wanted: T) {
    assert_eq!(rt; value, wanted);
}

// Bound and side have met there. There are lemmas where the floor's side is less.
fn is_met(rt: &impl Abort, answer: &Solved, side: u64, floor: u64) {
    let certificate = &answer.certificate;
    is(rt, (certificate.side, certificate.bound), (side, side));
    is(rt, certificate.floor.side, floor);
    is(rt, certificate.lemmas.is_some(), floor < side);
    is(rt, answer.ending, Ending::Met);
    is(
        rt,
        answer.text.as_slice().starts_with(b"boxpleat 3\n"),
        true,
    );
    is(rt, answer.text.as_slice().ends_with(b"\nend\n"), true);
}

const FOUR: [u64; 5] = [0, 0, 0, 0, 0];

const FOUR_LENGTHS: [u64; 5] = [0, 1, 1, 1, 1];

const STAR: [u64; 6] = [0, 0, 0, 0, 0, 0];

const STAR_LENGTHS: [u64; 6] = [0, 2, 2, 2, 1, 1];

fn meets(
    rt: &impl Abort,
    alloc: Global,
    parents: &[u64],
    lengths: &[u64],
    sheet: Sheet,
    side: u64,
    floor: u64,
) -> Result<(), Fail>
    requires tree { IsTrue (is_sample parents.now lengths.now) }
    requires sheet { IsSheet sheet }
{
    let answer = solved(alloc, parents, lengths, sheet, 1000)?;
    is_met(rt, &answer, side, floor);
    drop(answer);
    Ok(())
}

fn four_at_once(rt: &impl Abort, alloc: Global) -> Result<(), Fail> {
    let four = solved(alloc, &FOUR, &FOUR_LENGTHS, Sheet::Square, 1)?;
    is_met(rt, &four, 2, 2);
    is(rt, four.conflicts, 0);
    drop(four);
    Ok(())
}

// The star is solved again, with the same text.
fn is_again(rt: &impl Abort, alloc: Global, star: &Solved) -> Result<(), Fail> {
    let again = solved(alloc, &STAR, &STAR_LENGTHS, Sheet::Square, 1000)?;
    is(rt, star.text.as_slice() == again.text.as_slice(), true);
    drop(again);
    Ok(())
}

fn star_twice(rt: &impl Abort, alloc: Global) -> Result<(), Fail> {
    let star = solved(alloc, &STAR, &STAR_LENGTHS, Sheet::Square, 1000)?;
    is_met(rt, &star, 5, 4);
    let result = is_again(rt, alloc, &star);
    drop(star);
    result
}

#[test]
fn stars(rt: HostRuntime) -> Result<(), Fail> {
    let alloc = rt.alloc();
    let line = Sheet::Strip { width: 0 };
    let narrow = Sheet::Strip { width: 4 };
    four_at_once(&rt, alloc)?;
    star_twice(&rt, alloc)?;
    meets(&rt, alloc, &FOUR, &FOUR_LENGTHS, line, 6, 6)?;
    meets(&rt, alloc, &STAR, &STAR_LENGTHS, line, 12, 9)?;
    meets(&rt, alloc, &STAR, &STAR_LENGTHS, narrow, 5, 4)
}

const BEETLE: [u64; 12] = [0, 0, 1, 1, 1, 0, 0, 0, 0, 0, 0, 0];

const BEETLE_LENGTHS: [u64; 12] = [0, 3, 4, 4, 2, 6, 6, 6, 6, 6, 6, 5];

fn whole_beetle(rt: &impl Abort, alloc: Global) -> Result<(), Fail> {
    let whole = solved(alloc, &BEETLE, &BEETLE_LENGTHS, Sheet::Square, 100_000)?;
    is_met(rt, &whole, 25, 24);
    drop(whole);
    Ok(())
}

fn is_spent(rt: &impl Abort, answer: &Solved) {
    is(rt, answer.ending, Ending::Spent);
    assert!(rt; answer.conflicts >= 1);
    assert!(rt; answer.certificate.side >= 25 && answer.certificate.bound >= 24);
}

#[test]
fn beetle(rt: HostRuntime) -> Result<(), Fail> {
    let alloc = rt.alloc();
    whole_beetle(&rt, alloc)?;
    let short = solved(alloc, &BEETLE, &BEETLE_LENGTHS, Sheet::Square, 1)?;
    is_spent(&rt, &short);
    drop(short);
    Ok(())
}
