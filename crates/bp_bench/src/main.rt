//! Times a warm path, a whole search with its records, joining these, the same search by the machine, pushes and takes of a hand, and
//! searches by hands on threads beside a plain stack, and the searches of the steady answer, on 16 leaves, and prints on standard error how many were done in how many
//! milliseconds.
#![tactic(auto)]

mod hands;
mod steadied;

ghost use Rattle.std.specs.Prelude.{◌≡◌, ◌≤◌, ◌<◌, ◌*◌, ◌-◌, ◌+◌, ◌/◌, ◌++◌, ℕ, IsTrue, IfOk, OnOk, length};
ghost use Rattle.bp_base.specs.Limits.{most_hands};
ghost use Rattle.bp_base.specs.Path.{IsPairOf};
ghost use Rattle.bp_base.specs.Tree.{leaf_count};
ghost use Rattle.bp_core.specs.Underway.{IsUnderway};
ghost use Rattle.bp_pool.specs.Shares.{IsTaskOf};
ghost use Rattle.bp_warm.specs.Warm.{pair_count};

use bp_base::{Choice, NoMemory, Pair, Path, Refutation, Settled, Step, Task};
use bp_floor::floor;
use bp_join::join;
use bp_machine::run_seeded;
use bp_metric::Metric;
use bp_opening::open;
use bp_pool::{Hand, Take};
use bp_samples::tree;
use bp_stack::{begin, search};
use bp_warm::Warm;
use hands::timed_hands;
use std::alloc::Global;
use std::io;
use std::process::ExitCode;
use std::rt::Runtime;
use std::time::Instant;
use steadied::timed_steady;

// Adds the steps whose pairs are pairs of leaves and that close no cycle, and answers how many were added.
fn go_down(metric: &Metric, warm: &mut Warm, steps: &[(u64, u64, Choice)]) -> u64
    requires metric { metric.now ≡ warm.old.metric }
    requires empty { length warm.old.path ≡ 0 }
    ensures metric { warm.new.metric ≡ warm.old.metric }
    ensures depth { result ≡ length warm.new.path }
{
    let n = metric.leaves();
    let mut depth = 0;
    for (i, j, choice) in steps {
        if *i < 1 || *i >= *j || n < *j || depth >= n * (n - 1) / 2 {
            return depth;
        }
        depth = add(metric, warm, depth, Pair { i: *i, j: *j }, *choice);
    }
    depth
}

fn add(metric: &Metric, warm: &mut Warm, depth: u64, pair: Pair, choice: Choice) -> u64
    requires metric { metric.now ≡ warm.old.metric }
    requires depth { depth ≡ length warm.old.path }
    requires room { length warm.old.path < pair_count metric.now.tree }
    requires pair { IsPairOf (leaf_count metric.now.tree) pair }
    ensures metric { warm.new.metric ≡ warm.old.metric }
    ensures depth { result ≡ length warm.new.path }
{
    let _leaves = metric.leaves();
    match warm.extend(metric, Step { pair, choice }) {
        Some(_) => depth,
        None => depth.saturating_add(1),
    }
}

// Takes all steps off.
fn go_up(warm: &mut Warm, depth: u64)
    requires { depth ≡ length warm.old.path }
    ensures metric { warm.new.metric ≡ warm.old.metric }
    ensures empty { length warm.new.path ≡ 0 }
{
    for _ in 0..depth {
        warm.retract();
    }
}

const ROUNDS: u64 = 200_000;

fn timed(rt: &impl Runtime, metric: &Metric, warm: &mut Warm) -> io::Result<()>
    requires metric { metric.now ≡ warm.old.metric }
    requires empty { length warm.old.path ≡ 0 }
{
    let steps = [
        (1, 2, Choice::Left),
        (1, 3, Choice::Below),
        (2, 3, Choice::Above),
        (1, 4, Choice::Left),
        (2, 4, Choice::Below),
        (3, 4, Choice::Left),
        (1, 5, Choice::Below),
        (2, 5, Choice::Left),
        (3, 5, Choice::Above),
        (4, 5, Choice::Below),
        (1, 6, Choice::Left),
        (2, 6, Choice::Left),
        (3, 6, Choice::Left),
        (4, 6, Choice::Left),
        (5, 6, Choice::Below),
        (6, 7, Choice::Left),
        (1, 7, Choice::Below),
        (8, 9, Choice::Left),
        (7, 9, Choice::Above),
        (6, 16, Choice::Left),
    ];
    let start = Instant::now(rt)?;
    let mut count = 0u64;
    for _ in 0..ROUNDS {
        let depth = go_down(metric, warm, &steps);
        go_up(warm, depth);
        count = count.saturating_add(depth);
    }
    let spent = start.elapsed(rt)?.as_millis();
    eprintln!(rt; "{count} extensions with retractions in {spent} ms")?;
    Ok(())
}

// A whole search from the opening on, with as many branches as a search may have.
fn searched(alloc: Global, metric: &Metric) -> Result<Settled, NoMemory>
    ensures { IfOk result (λ Z. IsUnderway metric.now.tree metric.now.sheet 200000 Z) }
{
    let opening = open(alloc, metric)?;
    let floor = floor(alloc, metric)?;
    let start = begin(alloc, metric, opening)?;
    search(alloc, metric, start, floor.side, 200_000)
}

// What the search has come to as one refutation.
fn joined(alloc: Global, metric: &Metric, settled: Settled) -> Result<Refutation, NoMemory>
    requires { IsUnderway metric.now.tree metric.now.sheet 200000 settled }
{
    let _leaves = metric.leaves();
    let Settled { records, left, .. } = settled;
    join(alloc, metric, records.into_vec(), left.into_vec())
}

fn timed_search(rt: &impl Runtime, alloc: Global, metric: &Metric) -> io::Result<()> {
    let start = Instant::now(rt)?;
    let Ok(settled) = searched(alloc, metric) else {
        return Ok(());
    };
    let spent = start.elapsed(rt)?.as_millis();
    let count = settled.examined;
    let rate = u128::from(count).saturating_mul(1000) / spent.max(1);
    eprintln!(rt; "{count} branches of a search in {spent} ms, {rate} a second")?;
    let nodes = settled.records.len().saturating_add(settled.left.len());
    let start = Instant::now(rt)?;
    let refutation = joined(alloc, metric, settled);
    let spent = start.elapsed(rt)?.as_millis();
    if refutation.is_ok() {
        eprintln!(rt; "{nodes} nodes joined in {spent} ms")?;
    }
    Ok(())
}

// The same search by the machine of so many hands; none where the opening meets the floor.
fn played(alloc: Global, metric: &Metric, hands: u64) -> Result<Option<Settled>, NoMemory>
    requires { (1 ≤ hands) × (hands ≤ most_hands) }
{
    let opening = open(alloc, metric)?;
    let floor = floor(alloc, metric)?;
    if floor.side >= opening.side {
        return Ok(None);
    }
    let settled = run_seeded(alloc, metric, opening, floor.side, hands, 200_000, 1)?;
    Ok(Some(settled))
}

fn timed_machine(rt: &impl Runtime, alloc: Global, metric: &Metric, hands: u64) -> io::Result<()>
    requires { (1 ≤ hands) × (hands ≤ most_hands) }
{
    let start = Instant::now(rt)?;
    let Ok(Some(settled)) = played(alloc, metric, hands) else {
        return Ok(());
    };
    let spent = start.elapsed(rt)?.as_millis();
    let count = settled.examined;
    let rate = u128::from(count).saturating_mul(1000) / spent.max(1);
    eprintln!(rt;
        "{count} branches of the machine with {hands} hands in {spent} ms, {rate} a second"
    )?;
    Ok(())
}

// A task whose path is empty.
fn task(alloc: Global, _leaves: u64) -> Task
    ensures { IsTaskOf _leaves result }
{
    Task {
        path: Path::empty(alloc),
        bound: 0,
    }
}

// Pushes a task and takes it again, so many times; how often there was one.
fn pass_on(alloc: Global, hand: &mut Hand, leaves: u64, rounds: u64) -> u64
    requires { hand.old.pool.leaves ≡ leaves }
{
    let mut count = 0u64;
    for _ in 0..rounds {
        let _ = hand.push(task(alloc, leaves));
        if let Take::Task(_) = hand.take() {
            count = count.saturating_add(1);
        }
    }
    count
}

const PASSES: u64 = 2_000_000;

// So many pushes and takes in a pool of one hand; how often there was a task.
fn passed(alloc: Global) -> Result<u64, NoMemory> {
    let mut hands = bp_pool::open(alloc, 1, 16, task(alloc, 16))?;
    Ok(pass_on(alloc, &mut hands[0], 16, PASSES))
}

fn timed_pool(rt: &impl Runtime, alloc: Global) -> io::Result<()> {
    let start = Instant::now(rt)?;
    let count = passed(alloc).unwrap_or(0);
    let spent = start.elapsed(rt)?.as_millis();
    eprintln!(rt; "{count} pushes with takes of a hand in {spent} ms")?;
    Ok(())
}

fn prepared(alloc: Global) -> Result<(Metric, Warm), NoMemory>
    ensures { IfOk result (λ p. (p.0 ≡ p.1.metric) × (length p.1.path ≡ 0)) }
{
    let lengths = [0, 3, 1, 4, 1, 5, 9, 2, 6, 5, 3, 5, 8, 9, 7, 9, 3];
    let tree = tree(alloc, &[0; 17], &lengths)?;
    let metric = Metric::of(alloc, &tree)?;
    let warm = Warm::open(alloc, &metric)?;
    Ok((metric, warm))
}

fn main(rt: HostRuntime) -> io::Result<ExitCode> {
    let (metric, mut warm) = match prepared(rt.alloc()) {
        Ok(prepared) => prepared,
        Err(NoMemory) => return Ok(ExitCode::from(1)),
    };
    timed(&rt, &metric, &mut warm)?;
    timed_search(&rt, rt.alloc(), &metric)?;
    timed_machine(&rt, rt.alloc(), &metric, 1)?;
    timed_machine(&rt, rt.alloc(), &metric, 4)?;
    timed_pool(&rt, rt.alloc())?;
    timed_steady(&rt, rt.alloc())?;
    // The searches of these trees don't end before the budget is spent.
    for seed in [1, 2, 3] {
        timed_hands(&rt, rt.alloc(), seed)?;
    }
    Ok(ExitCode::from(0))
}
