// The same search by a plain stack and by hands on threads.
ghost use Rattle.std.specs.Prelude.{◌<◌, ◌≤◌, ◌^◌};
ghost use Rattle.bp_base.specs.Limits.{most_hands};

use bp_base::{NoMemory, OpenGate, Settled};
use bp_floor::floor;
use bp_made::made_tree;
use bp_metric::Metric;
use bp_opening::open;
use bp_stack::{begin, search};
use bp_workers::run_hands;
use std::alloc::Global;
use std::io;
use std::rt::Runtime;
use std::thread::Threads;
use std::time::Instant;

const LEAVES: u64 = 16;

const BUDGET: u64 = 200_000;

/// A made tree's search by a stack and by one, two and four hands, one after the other.
pub fn timed_hands<R: Runtime + Threads + Sync>(rt: &R, alloc: Global, seed: u64) -> io::Result<()>
    requires { seed < 2 ^ 32 }
{
    let Ok(metric) = made(alloc, seed) else {
        return Ok(());
    };
    eprintln!(rt; "{LEAVES} leaves made from the seed {seed}:")?;
    timed_stack(rt, alloc, &metric)?;
    for hands in [1, 2, 4] {
        timed_team(rt, alloc, &metric, hands)?;
    }
    Ok(())
}

fn made(alloc: Global, seed: u64) -> Result<Metric, NoMemory>
    requires { seed < 2 ^ 32 }
{
    let tree = made_tree(alloc, LEAVES, seed)?;
    Metric::of(alloc, &tree)
}

fn timed_stack<R: Runtime>(rt: &R, alloc: Global, metric: &Metric) -> io::Result<()> {
    let start = Instant::now(rt)?;
    let found = by_stack(alloc, metric);
    let spent = start.elapsed(rt)?.as_micros();
    tell(rt, "a plain stack", found, spent)
}

fn timed_team<R: Runtime + Threads + Sync>(
    rt: &R,
    alloc: Global,
    metric: &Metric,
    hands: u64,
) -> io::Result<()>
    requires { (1 ≤ hands) × (hands ≤ most_hands) }
{
    let start = Instant::now(rt)?;
    let found = by_hands(rt, alloc, metric, hands);
    let spent = start.elapsed(rt)?.as_micros();
    let who = match hands {
        1 => "one hand",
        2 => "two hands",
        _ => "four hands",
    };
    tell(rt, who, found, spent)
}

// How many branches, in which time, and how many that are a second.
fn tell<R: Runtime>(
    rt: &R,
    who: &str,
    found: Result<Settled, NoMemory>,
    spent: u128,
) -> io::Result<()> {
    let Ok(found) = found else {
        return Ok(());
    };
    let count = found.examined;
    let rate = u128::from(count).saturating_mul(1_000_000) / spent.max(1);
    let spent = spent / 1000;
    eprintln!(rt; "{count} branches by {who} in {spent} ms, {rate} a second")
}

fn by_stack(alloc: Global, metric: &Metric) -> Result<Settled, NoMemory> {
    let opening = open(alloc, metric)?;
    let floor = floor(alloc, metric)?;
    let start = begin(alloc, metric, opening)?;
    search(alloc, metric, start, floor.side, BUDGET)
}

fn by_hands<R: Threads + Sync>(
    rt: &R,
    alloc: Global,
    metric: &Metric,
    hands: u64,
) -> Result<Settled, NoMemory>
    requires { (1 ≤ hands) × (hands ≤ most_hands) }
{
    let opening = open(alloc, metric)?;
    let floor = floor(alloc, metric)?;
    run_hands(
        rt, alloc, metric, opening, floor.side, hands, BUDGET, &OpenGate,
    )
}
