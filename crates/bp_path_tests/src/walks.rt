// Least coordinates of worked paths.

use bp_base::{Axis, Choice, Claim, Sheet, Step, Walked};
use bp_metric::Metric;
use bp_samples::{leaves_of, path_of, step, tree};
use bp_walks::{cycle_on, has_least, least, one_least};
use std::alloc::Global;
use std::process::Abort;
use std::test::Fail;

// What is wanted of a path: its coordinates and what it forces, or none of these where it has a cycle; and its claim.
#[derive(Drop)]
struct Wanted<'a> {
    steps: &'a [Step],
    xs: &'a [u64],
    ys: &'a [u64],
    forced: u64,
    axis: Axis,
    leaves: &'a [u64],
}

fn is_wanted(rt: &impl Abort, alloc: Global, metric: &Metric, wanted: &Wanted) -> Result<(), Fail> {
    let path = path_of(alloc, metric.leaves(), wanted.steps)?;
    match least(alloc, metric, &path)? {
        Walked::Fine(found) => {
            assert_eq!(rt; found.xs.as_slice(), wanted.xs);
            assert_eq!(rt; found.ys.as_slice(), wanted.ys);
            assert_eq!(rt; found.forced, wanted.forced);
            is_claim(rt, alloc, &found.claim, wanted, true)?;
        }
        Walked::Cycle(claim) => {
            assert_eq!(rt; wanted.xs.len(), 0);
            is_claim(rt, alloc, &claim, wanted, false)?;
        }
    }
    has_least(metric);
    one_least(metric);
    let closed = cycle_on(alloc, metric, &path, wanted.axis);
    assert_eq!(rt; closed.is_some(), wanted.xs.is_empty());
    Ok(())
}

fn is_claim(
    rt: &impl Abort,
    alloc: Global,
    claim: &Claim,
    wanted: &Wanted,
    walk: bool,
) -> Result<(), Fail> {
    let (axis, chain, is_walk) = match claim {
        Claim::Walk { axis, chain } => (*axis, chain, true),
        Claim::Cycle { axis, chain } => (*axis, chain, false),
    };
    assert_eq!(rt; is_walk, walk);
    assert_eq!(rt; axis, wanted.axis);
    assert_eq!(rt; leaves_of(alloc, chain)?.as_slice(), wanted.leaves);
    Ok(())
}

const X: Axis = Axis::X;

const Y: Axis = Axis::Y;

const LEFT: Choice = Choice::Left;

const RIGHT: Choice = Choice::Right;

const BELOW: Choice = Choice::Below;

const ABOVE: Choice = Choice::Above;

fn of_path<'a>(
    steps: &'a [Step],
    xs: &'a [u64],
    ys: &'a [u64],
    forced: u64,
    axis: Axis,
    leaves: &'a [u64],
) -> Wanted<'a> {
    Wanted {
        steps,
        xs,
        ys,
        forced,
        axis,
        leaves,
    }
}

#[test]
fn on_square(rt: HostRuntime) -> Result<(), Fail> {
    let alloc = rt.alloc();
    let tree = tree(alloc, &[0, 0, 0, 0], &[0, 1, 1, 1])?;
    let metric = Metric::of(alloc, &tree)?;
    for row in &[
        of_path(&[], &[0, 0, 0], &[0, 0, 0], 0, X, &[1]),
        of_path(
            &[step(1, 2, LEFT), step(2, 3, LEFT), step(1, 3, RIGHT)],
            &[],
            &[],
            0,
            X,
            &[1, 2, 3],
        ),
        of_path(
            &[step(1, 2, LEFT), step(2, 3, LEFT)],
            &[0, 2, 4],
            &[0, 0, 0],
            4,
            X,
            &[1, 2, 3],
        ),
        of_path(
            &[step(1, 2, ABOVE), step(1, 3, LEFT)],
            &[0, 0, 2],
            &[2, 0, 0],
            2,
            X,
            &[1, 3],
        ),
        of_path(
            &[step(1, 2, ABOVE), step(1, 3, BELOW)],
            &[0, 0, 0],
            &[2, 0, 4],
            4,
            Y,
            &[2, 1, 3],
        ),
        of_path(
            &[step(2, 3, LEFT), step(1, 3, LEFT)],
            &[0, 0, 2],
            &[0, 0, 0],
            2,
            X,
            &[1, 3],
        ),
        of_path(
            &[step(2, 3, BELOW), step(1, 3, LEFT), step(2, 3, ABOVE)],
            &[],
            &[],
            0,
            Y,
            &[2, 3],
        ),
    ] {
        is_wanted(&rt, alloc, &metric, row)?;
    }
    Ok(())
}

#[test]
fn on_strips(rt: HostRuntime) -> Result<(), Fail> {
    let alloc = rt.alloc();
    let tree = tree(alloc, &[0, 0, 0, 0], &[0, 1, 1, 1])?;
    let steps = [step(1, 2, LEFT), step(2, 3, LEFT)];
    let wide = Metric::on(alloc, &tree, Sheet::Strip { width: 4 })?;
    is_wanted(
        &rt,
        alloc,
        &wide,
        &of_path(&steps, &[0, 2, 4], &[0, 0, 0], 0, Y, &[1]),
    )?;
    let narrow = Metric::on(alloc, &tree, Sheet::Strip { width: 3 })?;
    let row = of_path(&steps, &[0, 2, 4], &[0, 0, 0], 999_999_999, X, &[1, 2, 3]);
    is_wanted(&rt, alloc, &narrow, &row)
}
