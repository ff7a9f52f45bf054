// A warm state compared with least coordinates from scratch.
ghost use Rattle.std.specs.Prelude.{◌≡◌, ◌<◌, OnOk, length};
ghost use Rattle.bp_base.specs.Path.{IsPairOf};
ghost use Rattle.bp_base.specs.Tree.{leaf_count};
ghost use Rattle.bp_metric.specs.Metric.{IsSheet};
ghost use Rattle.bp_warm.specs.Warm.{pair_count};

use bp_base::{Axis, Choice, Claim, Least, Pair, Sheet, Step, Tree, Walked};
use bp_metric::Metric;
use bp_samples::{leaves_of, path_of, step, tree};
use bp_walks::least;
use bp_warm::Warm;
use std::alloc::Global;
use std::process::Abort;
use std::test::Fail;

// The axis and the leaves of a walk.
fn shown(alloc: Global, claim: &Claim) -> Result<(Axis, Vec<u64>), Fail> {
    match claim {
        Claim::Walk { axis, chain } => Ok((*axis, leaves_of(alloc, chain)?)),
        Claim::Cycle { .. } => Err(Fail::from("a cycle")),
    }
}

fn are_equal(rt: &impl Abort, alloc: Global, warm: &Least, cold: &Least) -> Result<(), Fail> {
    assert_eq!(rt; warm.xs.as_slice(), cold.xs.as_slice());
    assert_eq!(rt; warm.ys.as_slice(), cold.ys.as_slice());
    assert_eq!(rt; warm.forced, cold.forced);
    let (axis, leaves) = shown(alloc, &warm.claim)?;
    let (cold_axis, cold_leaves) = shown(alloc, &cold.claim)?;
    assert_eq!(rt; axis, cold_axis);
    assert_eq!(rt; leaves.as_slice(), cold_leaves.as_slice());
    Ok(())
}

// The warm state's answer is that from scratch for these steps.
fn is_warm(
    rt: &impl Abort,
    alloc: Global,
    metric: &Metric,
    warm: &Warm,
    steps: &[Step],
) -> Result<(), Fail> {
    let path = path_of(alloc, metric.leaves(), steps)?;
    match least(alloc, metric, &path)? {
        Walked::Fine(cold) => are_equal(rt, alloc, warm.least(), &cold),
        Walked::Cycle(_) => Err(Fail::from("a cycle")),
    }
}

fn choice_of(draw: u64) -> Choice {
    match draw % 4 {
        0 => Choice::Left,
        1 => Choice::Right,
        2 => Choice::Below,
        _ => Choice::Above,
    }
}

// Whether these steps have a cycle, from scratch.
fn has_cycle(alloc: Global, metric: &Metric, steps: &[Step]) -> Result<bool, Fail> {
    let path = path_of(alloc, metric.leaves(), steps)?;
    match least(alloc, metric, &path)? {
        Walked::Fine(_) => Ok(false),
        Walked::Cycle(_) => Ok(true),
    }
}

// Adds a step, also to the list where it closed no cycle.
fn add(
    alloc: Global,
    metric: &Metric,
    warm: &mut Warm,
    steps: &mut Vec<Step>,
    step: Step,
) -> Result<(), Fail>
    requires metric { metric.now ≡ warm.old.metric }
    requires same { length warm.old.path ≡ length steps.old.items }
    requires room { length warm.old.path < pair_count metric.now.tree }
    requires pair { IsPairOf (leaf_count metric.now.tree) step.pair }
    ensures metric { warm.new.metric ≡ warm.old.metric }
    ensures same { OnOk result (length warm.new.path ≡ length steps.new.items) }
{
    steps.push(step)?;
    match warm.extend(metric, step) {
        None => Ok(()),
        Some(_) => {
            let cycle = has_cycle(alloc, metric, steps);
            let _last = steps.pop();
            if cycle? {
                Ok(())
            } else {
                Err(Fail::from("no cycle"))
            }
        }
    }
}

// Adds a drawn step or takes the last one off.
fn turn(
    alloc: Global,
    metric: &Metric,
    warm: &mut Warm,
    steps: &mut Vec<Step>,
    draw: u64,
) -> Result<(), Fail>
    requires metric { metric.now ≡ warm.old.metric }
    requires same { length warm.old.path ≡ length steps.old.items }
    ensures metric { warm.new.metric ≡ warm.old.metric }
    ensures same { OnOk result (length warm.new.path ≡ length steps.new.items) }
{
    let n = metric.leaves();
    let pair = Pair {
        i: 1 + draw / 8 % n,
        j: 1 + draw / 256 % n,
    };
    let room = steps.len() < n as usize * (n as usize - 1) / 2;
    if draw % 8 < 6 && room && pair.i < pair.j {
        let choice = choice_of(draw / 8192);
        return add(alloc, metric, warm, steps, Step { pair, choice });
    }
    match steps.pop() {
        Some(_) => warm.retract(),
        None => {}
    }
    Ok(())
}

fn many_turns(
    rt: &impl Abort,
    alloc: Global,
    metric: &Metric,
    warm: &mut Warm,
    seed: u64,
) -> Result<(), Fail>
    requires metric { metric.now ≡ warm.old.metric }
    requires empty { length warm.old.path ≡ 0 }
{
    let mut steps = Vec::new(alloc);
    let mut state = seed % 2147483648;
    for _ in 0..300u64 {
        state = (state * 1103515245 + 12345) % 2147483648;
        turn(alloc, metric, warm, &mut steps, state / 65536)?;
        is_warm(rt, alloc, metric, warm, &steps)?;
    }
    Ok(())
}

fn on_metric(rt: &impl Abort, alloc: Global, metric: &Metric, seed: u64) -> Result<(), Fail> {
    let mut warm = Warm::open(alloc, metric)?;
    let result = many_turns(rt, alloc, metric, &mut warm, seed);
    // Dropped by a call, as other large values below: the proof of a drop in place goes through all that the value holds, branch by branch.
    drop(warm);
    result
}

fn on_sheet(
    rt: &impl Abort,
    alloc: Global,
    tree: &Tree,
    sheet: Sheet,
    seed: u64,
) -> Result<(), Fail>
    requires { IsSheet sheet }
{
    let metric = Metric::on(alloc, tree, sheet)?;
    let result = on_metric(rt, alloc, &metric, seed);
    drop(metric);
    result
}

fn on_sheets(rt: &impl Abort, alloc: Global, tree: &Tree) -> Result<(), Fail> {
    on_sheet(rt, alloc, tree, Sheet::Square, 1)?;
    on_sheet(rt, alloc, tree, Sheet::Strip { width: 0 }, 2)?;
    on_sheet(rt, alloc, tree, Sheet::Strip { width: 14 }, 3)?;
    on_sheet(rt, alloc, tree, Sheet::Strip { width: 999_999 }, 4)
}

#[test]
fn as_from_scratch(rt: HostRuntime) -> Result<(), Fail> {
    let alloc = rt.alloc();
    let parents = [0, 0, 0, 0, 1, 1, 2, 2, 3, 3];
    let tree = tree(alloc, &parents, &[0, 3, 2, 1, 4, 2, 1, 5, 2, 2])?;
    let result = on_sheets(&rt, alloc, &tree);
    drop(tree);
    result
}

// A star of three on the square.
fn star(alloc: Global) -> Result<Metric, Fail> {
    let tree = tree(alloc, &[0, 0, 0, 0], &[0, 1, 1, 1])?;
    let metric = Metric::of(alloc, &tree);
    drop(tree);
    Ok(metric?)
}

// Adds a step where it names a pair of leaves and there is room for it.
fn put(
    alloc: Global,
    metric: &Metric,
    warm: &mut Warm,
    steps: &mut Vec<Step>,
    step: Step,
) -> Result<(), Fail>
    requires metric { metric.now ≡ warm.old.metric }
    requires same { length warm.old.path ≡ length steps.old.items }
    ensures metric { warm.new.metric ≡ warm.old.metric }
    ensures same { OnOk result (length warm.new.path ≡ length steps.new.items) }
{
    let n = metric.leaves();
    let room = steps.len() < n as usize * (n as usize - 1) / 2;
    if room && 1 <= step.pair.i && step.pair.i < step.pair.j && step.pair.j <= n {
        return add(alloc, metric, warm, steps, step);
    }
    Err(Fail::from("no step"))
}

// The three stand in a row.
fn in_a_row(rt: &impl Abort, alloc: Global, found: &Least) -> Result<(), Fail> {
    assert_eq!(rt; found.xs.as_slice(), [0, 2, 4].as_slice());
    assert_eq!(rt; found.ys.as_slice(), [0, 0, 0].as_slice());
    assert_eq!(rt; found.forced, 4);
    let (axis, leaves) = shown(alloc, &found.claim)?;
    assert_eq!(rt; axis, Axis::X);
    assert_eq!(rt; leaves.as_slice(), [1, 2, 3].as_slice());
    Ok(())
}

fn two_steps(
    rt: &impl Abort,
    alloc: Global,
    metric: &Metric,
    warm: &mut Warm,
    steps: &mut Vec<Step>,
) -> Result<(), Fail>
    requires metric { metric.now ≡ warm.old.metric }
    requires same { length warm.old.path ≡ length steps.old.items }
{
    put(alloc, metric, warm, steps, step(1, 2, Choice::Left))?;
    put(alloc, metric, warm, steps, step(2, 3, Choice::Left))?;
    is_warm(rt, alloc, metric, warm, steps)?;
    in_a_row(rt, alloc, warm.least())
}

fn two_steps_on(rt: &impl Abort, alloc: Global, metric: &Metric) -> Result<(), Fail> {
    let mut warm = Warm::open(alloc, metric)?;
    let mut steps = Vec::new(alloc);
    let result = two_steps(rt, alloc, metric, &mut warm, &mut steps);
    drop(steps);
    drop(warm);
    result
}

#[test]
fn two_steps_of_a_star(rt: HostRuntime) -> Result<(), Fail> {
    let alloc = rt.alloc();
    let metric = star(alloc)?;
    let result = two_steps_on(&rt, alloc, &metric);
    drop(metric);
    result
}

// Goes to the path of these steps; whether it has no cycle.
fn goes(alloc: Global, metric: &Metric, warm: &mut Warm, steps: &[Step]) -> Result<bool, Fail>
    requires { metric.now ≡ warm.old.metric }
    ensures { warm.new.metric ≡ warm.old.metric }
{
    let n = metric.leaves();
    let path = path_of(alloc, n, steps)?;
    if path.len() > n * (n - 1) / 2 {
        return Err(Fail::from("too long"));
    }
    Ok(warm.go_to(metric, &path).is_none())
}

// Goes from path to path, and compares each with least coordinates from scratch.
fn go_along(
    rt: &impl Abort,
    alloc: Global,
    metric: &Metric,
    warm: &mut Warm,
    paths: &[&[Step]],
) -> Result<(), Fail>
    requires { metric.now ≡ warm.old.metric }
    ensures { warm.new.metric ≡ warm.old.metric }
{
    for steps in paths {
        assert!(rt; goes(alloc, metric, warm, steps)?);
        assert_eq!(rt; warm.len(), steps.len() as u64);
        is_warm(rt, alloc, metric, warm, steps)?;
    }
    Ok(())
}

// Goes along four paths, and then to one with a cycle.
fn to_a_cycle(rt: &impl Abort, alloc: Global, metric: &Metric, warm: &mut Warm) -> Result<(), Fail>
    requires { metric.now ≡ warm.old.metric }
{
    let right = step(1, 3, Choice::Right);
    let paths: [&[Step]; 4] = [
        &[step(1, 2, Choice::Left), step(2, 3, Choice::Left)],
        &[step(1, 2, Choice::Left), right],
        &[],
        &[step(2, 3, Choice::Left)],
    ];
    go_along(rt, alloc, metric, warm, &paths)?;
    let cycle = [step(1, 2, Choice::Left), step(2, 3, Choice::Left), right];
    assert!(rt; !goes(alloc, metric, warm, &cycle)?);
    Ok(())
}

fn to_a_cycle_on(rt: &impl Abort, alloc: Global, metric: &Metric) -> Result<(), Fail> {
    let mut warm = Warm::open(alloc, metric)?;
    let result = to_a_cycle(rt, alloc, metric, &mut warm);
    drop(warm);
    result
}

#[test]
fn from_path_to_path(rt: HostRuntime) -> Result<(), Fail> {
    let alloc = rt.alloc();
    let metric = star(alloc)?;
    let result = to_a_cycle_on(&rt, alloc, &metric);
    drop(metric);
    result
}
