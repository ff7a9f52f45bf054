// How many paths the searches of the steady answer examine.
use bp_base::NoMemory;
use bp_metric::Metric;
use bp_opening::open;
use bp_samples::tree;
use bp_steady::{Steadied, steady};
use std::alloc::Global;
use std::io;
use std::rt::Runtime;
use std::time::Instant;

const PATHS: u64 = 1_000_000;

/// The steady answer of a star of 16 equal flaps, which wants more paths than its budget.
pub fn timed_steady(rt: &impl Runtime, alloc: Global) -> io::Result<()> {
    let start = Instant::now(rt)?;
    let Ok(Steadied::Spent) = of_a_star(alloc) else {
        return Ok(());
    };
    let spent = start.elapsed(rt)?.as_millis();
    let rate = u128::from(PATHS).saturating_mul(1000) / spent.max(1);
    eprintln!(rt; "{PATHS} paths of the steady answer in {spent} ms, {rate} a second")?;
    Ok(())
}

fn of_a_star(alloc: Global) -> Result<Steadied, NoMemory> {
    let lengths = [0, 1, 1, 1, 1, 1, 1, 1, 1, 1, 1, 1, 1, 1, 1, 1, 1];
    let star = tree(alloc, &[0; 17], &lengths)?;
    let metric = Metric::of(alloc, &star)?;
    let opening = open(alloc, &metric)?;
    let side = opening.side;
    steady(alloc, &metric, side, opening.points.as_slice(), PATHS)
}
