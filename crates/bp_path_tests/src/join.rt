// Worked searches of stars, joined.
ghost use Rattle.std.specs.Prelude.{◌≡◌, ◌++◌, ◌≤◌, IfOk, OnOk, All};
ghost use Rattle.bp_base.specs.Path.{IsPairOf};
ghost use Rattle.bp_base.specs.Tree.{leaf_count};
ghost use Rattle.bp_metric.specs.Chains.{HasPairsOf};
ghost use Rattle.bp_metric.specs.Metric.{IsSheet};
ghost use Rattle.bp_metric.specs.Records.{children, paths_left};
ghost use Rattle.bp_path_tests.specs.Searches.{CanJoin};

use bp_base::{Axis, Chain, Claim, Pair, Path, Record, RecordKind, Refutation, Sheet, Step, Task};
use bp_branch::extended;
use bp_join::join;
use bp_metric::Metric;
use bp_pairs::allowed;
use bp_samples::tree;
use std::alloc::Global;
use std::process::Abort;
use std::test::Fail;

// What a search does with the task at a place in the list of those left.
#[derive(Clone, Copy)]
enum Turn {
    Split(usize, u64, u64),
    Close(usize, u64),
}

// Takes turns from the root on.
fn searched(
    alloc: Global,
    metric: &Metric,
    turns: &[Turn],
) -> Result<(Vec<Record>, Vec<Task>), Fail>
    ensures { IfOk result (λ r. CanJoin metric.now.tree metric.now.sheet r.0.items r.1.items) }
{
    let mut records = Vec::new(alloc);
    let mut left = Vec::new(alloc);
    left.push(Task {
        path: Path::empty(alloc),
        bound: 5,
    })?;
    for turn in turns {
        match *turn {
            Turn::Split(at, i, j) => {
                split(alloc, metric, &mut records, &mut left, at, Pair { i, j })?
            }
            Turn::Close(at, leaf) => close(alloc, metric, &mut records, &mut left, at, leaf)?,
        }
    }
    Ok((records, left))
}

fn split(
    alloc: Global,
    metric: &Metric,
    records: &mut Vec<Record>,
    left: &mut Vec<Task>,
    at: usize,
    pair: Pair,
) -> Result<(), Fail>
    requires { CanJoin metric.now.tree metric.now.sheet records.old.items left.old.items }
    ensures { OnOk result (CanJoin metric.now.tree metric.now.sheet records.new.items left.new.items) }
{
    if at >= left.len() || pair.i < 1 || pair.j <= pair.i || metric.leaves() < pair.j {
        return Err(Fail::from("no task or no pair"));
    }
    let task = left.remove(at);
    add_children(alloc, metric, left, &task.path, pair)?;
    records.push(Record {
        path: task.path,
        kind: RecordKind::Split { pair },
        ticket: 0,
        given: 5,
        bound: 5,
    })?;
    Ok(())
}

fn add_children(
    alloc: Global,
    metric: &Metric,
    left: &mut Vec<Task>,
    path: &Path,
    pair: Pair,
) -> Result<(), Fail>
    requires pair { IsPairOf (leaf_count metric.now.tree) pair }
    requires path { HasPairsOf (leaf_count metric.now.tree) path.now }
    requires left { All (λ t. HasPairsOf (leaf_count metric.now.tree) t.path) left.old.items }
    ensures paths { OnOk result (paths_left left.new.items ≡ paths_left left.old.items ++ children metric.now.tree metric.now.sheet path.now pair) }
    ensures pairs { OnOk result (All (λ t. HasPairsOf (leaf_count metric.now.tree) t.path) left.new.items) }
{
    let _leaves = metric.leaves();
    let choices = allowed(metric, pair);
    for k in 0..choices.count() {
        if path.len() >= 496 {
            return Err(Fail::from("no room"));
        }
        let step = Step {
            pair,
            choice: choices.at(k),
        };
        left.push(Task {
            path: extended(alloc, path, step)?,
            bound: 5,
        })?;
    }
    Ok(())
}

fn close(
    alloc: Global,
    metric: &Metric,
    records: &mut Vec<Record>,
    left: &mut Vec<Task>,
    at: usize,
    leaf: u64,
) -> Result<(), Fail>
    requires { CanJoin metric.now.tree metric.now.sheet records.old.items left.old.items }
    ensures { OnOk result (CanJoin metric.now.tree metric.now.sheet records.new.items left.new.items) }
{
    if at >= left.len() {
        return Err(Fail::from("no task"));
    }
    let Some(chain) = Chain::new(alloc, &[leaf]) else {
        return Err(Fail::from("no chain"));
    };
    let task = left.remove(at);
    records.push(Record {
        path: task.path,
        kind: RecordKind::Closed {
            claim: Claim::Walk {
                axis: Axis::Y,
                chain,
            },
        },
        ticket: 0,
        given: 5,
        bound: 5,
    })?;
    Ok(())
}

// A node as it is told: how deep it is, its kind, and its pair or the first leaves of its chain, 0 for those that it lacks.
#[derive(Clone, Copy, Debug, PartialEq, Eq)]
enum Told {
    Split(u64, u64, u64),
    Closed(u64, u64),
    Walk(u64, Axis, [u64; 3]),
    Cycle(u64, Axis, [u64; 3]),
}

fn at_or_zero(chain: &Chain, k: u64) -> u64 {
    if k < chain.len() { chain.at(k) } else { 0 }
}

fn open_told(depth: u64, claim: &Claim) -> Told {
    match claim {
        Claim::Walk { axis, chain } => Told::Walk(depth, *axis, firsts(chain)),
        Claim::Cycle { axis, chain } => Told::Cycle(depth, *axis, firsts(chain)),
    }
}

fn firsts(chain: &Chain) -> [u64; 3] {
    [
        at_or_zero(chain, 0),
        at_or_zero(chain, 1),
        at_or_zero(chain, 2),
    ]
}

fn closed_told(depth: u64, claim: &Claim) -> Told {
    match claim {
        Claim::Walk { chain, .. } => Told::Closed(depth, at_or_zero(chain, 0)),
        Claim::Cycle { .. } => Told::Closed(depth, 0),
    }
}

// Adds what is told of all nodes, in preorder.
fn tell(refutation: &Refutation, depth: u64, told: &mut Vec<Told>) -> Result<(), Fail> {
    match refutation {
        Refutation::Split { pair, children } => {
            told.push(Told::Split(depth, pair.i, pair.j))?;
            for child in children.as_slice() {
                tell(child, depth.saturating_add(1), told)?;
            }
            Ok(())
        }
        Refutation::Closed { claim } => Ok(told.push(closed_told(depth, claim))?),
        Refutation::Open { claim } => Ok(told.push(open_told(depth, claim))?),
    }
}

// What is joined after these turns, from the lists as they are or turned round.
fn joined(alloc: Global, metric: &Metric, turns: &[Turn], round: bool) -> Result<Vec<Told>, Fail> {
    let (mut records, mut left) = searched(alloc, metric, turns)?;
    if round {
        turn_round(metric, &mut records, &mut left);
    }
    let refutation = join(alloc, metric, records, left)?;
    let mut told = Vec::new(alloc);
    tell(&refutation, 0, &mut told)?;
    Ok(told)
}

fn turn_round(metric: &Metric, records: &mut Vec<Record>, left: &mut Vec<Task>)
    requires { CanJoin metric.now.tree metric.now.sheet records.old.items left.old.items }
    ensures { CanJoin metric.now.tree metric.now.sheet records.new.items left.new.items }
{
    let _leaves = metric.leaves();
    records.reverse();
    left.reverse();
}

// The same nodes, whatever the order in which they were found.
#[test]
fn whatever_order(rt: HostRuntime) -> Result<(), Fail> {
    let alloc = rt.alloc();
    let star = tree(alloc, &[0, 0, 0, 0], &[0, 2, 2, 1])?;
    let metric = Metric::of(alloc, &star)?;
    let first = [
        Turn::Split(0, 1, 2),
        Turn::Split(0, 1, 3),
        Turn::Split(0, 2, 3),
        Turn::Split(0, 2, 3),
        Turn::Close(1, 11),
        Turn::Close(2, 12),
        Turn::Close(4, 13),
        Turn::Close(5, 14),
    ];
    let second = [
        Turn::Split(0, 1, 2),
        Turn::Split(0, 1, 3),
        Turn::Split(1, 2, 3),
        Turn::Close(3, 13),
        Turn::Close(4, 14),
        Turn::Split(0, 2, 3),
        Turn::Close(5, 12),
        Turn::Close(3, 11),
    ];
    let wanted = [
        Told::Split(0, 1, 2),
        Told::Split(1, 1, 3),
        Told::Split(2, 2, 3),
        Told::Closed(3, 11),
        Told::Walk(3, Axis::X, [1, 3, 2]),
        Told::Closed(3, 12),
        Told::Walk(3, Axis::X, [1, 2, 0]),
        Told::Split(2, 2, 3),
        Told::Cycle(3, Axis::X, [1, 2, 3]),
        Told::Closed(3, 13),
        Told::Walk(3, Axis::X, [3, 1, 2]),
        Told::Closed(3, 14),
        Told::Walk(2, Axis::X, [1, 2, 0]),
    ];
    for turns in [first, second] {
        for round in [false, true] {
            let told = joined(alloc, &metric, &turns, round)?;
            assert_eq!(rt; told.as_slice(), wanted.as_slice());
        }
    }
    Ok(())
}

// A search that may examine one branch.
#[test]
fn one_record(rt: HostRuntime) -> Result<(), Fail> {
    let alloc = rt.alloc();
    let star = tree(alloc, &[0, 0, 0, 0, 0, 0], &[0, 2, 2, 2, 1, 1])?;
    let metric = Metric::of(alloc, &star)?;
    let told = joined(alloc, &metric, &[Turn::Split(0, 1, 2)], false)?;
    let wanted = [Told::Split(0, 1, 2), Told::Walk(1, Axis::X, [1, 2, 0])];
    assert_eq!(rt; told.as_slice(), wanted.as_slice());
    let none = joined(alloc, &metric, &[], true)?;
    assert_eq!(rt;
        none.as_slice(),
        [Told::Walk(0, Axis::X, [1, 0, 0])].as_slice()
    );
    Ok(())
}

// On a strip the first pair has two choices.
#[test]
fn on_a_strip(rt: HostRuntime) -> Result<(), Fail> {
    let alloc = rt.alloc();
    let star = tree(alloc, &[0, 0, 0], &[0, 2, 2])?;
    let metric = Metric::on(alloc, &star, Sheet::Strip { width: 3 })?;
    let turns = [Turn::Split(0, 1, 2), Turn::Close(1, 9)];
    let told = joined(alloc, &metric, &turns, false)?;
    let wanted = [
        Told::Split(0, 1, 2),
        Told::Walk(1, Axis::X, [1, 2, 0]),
        Told::Closed(1, 9),
    ];
    assert_eq!(rt; told.as_slice(), wanted.as_slice());
    Ok(())
}
