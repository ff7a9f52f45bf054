// Workers on one thread, and hands on threads.
ghost use Rattle.std.specs.Prelude.{◌≡◌, ◌≤◌, false, [], ◌∷◌, IfOk};
ghost use Rattle.bp_base.specs.Limits.{most_budget, most_hands};
ghost use Rattle.bp_metric.specs.Metric.{IsSheet};
ghost use Rattle.bp_incumbent.specs.Tickets.{is_spent};
ghost use Rattle.bp_pool.specs.Rows.{IsWhole};
ghost use Rattle.bp_workers.specs.Agrees.{Agrees, IsSameWorker};

use bp_base::{Gate, HoldGate, Left, NoMemory, OpenGate, Settled, Sheet, Tree};
use bp_floor::floor;
use bp_incumbent::Board;
use bp_metric::Metric;
use bp_opening::open;
use bp_pool::gather;
use bp_samples::tree;
use bp_stack::{begin, search};
use bp_workers::{Worker, hire, run_hands};
use std::alloc::Global;
use std::process::Abort;
use std::test::Fail;
use std::thread::Threads;

fn star(alloc: Global) -> Result<Tree, NoMemory> {
    tree(alloc, &[0, 0, 0, 0, 0, 0], &[0, 2, 2, 2, 1, 1])
}

// A tree whose search solves three branches, each with a lesser side than the one before.
fn thrice_better(alloc: Global) -> Result<Tree, NoMemory> {
    tree(alloc, &[0, 0, 0, 0, 0, 4, 0], &[0, 1, 4, 3, 1, 4, 4])
}

// The search of a tree by so many hands.
fn search_by<R: Threads + Sync, G: Gate + Sync>(
    rt: &R,
    alloc: Global,
    tree: &Tree,
    sheet: Sheet,
    hands: u64,
    budget: u64,
    gate: &G,
) -> Result<Settled, NoMemory>
    requires { IsSheet sheet × (1 ≤ hands) × (hands ≤ most_hands) × (budget ≤ most_budget) }
{
    let metric = Metric::on(alloc, tree, sheet)?;
    let opening = open(alloc, &metric)?;
    let least = floor(alloc, &metric)?;
    run_hands(rt, alloc, &metric, opening, least.side, hands, budget, gate)
}

// Its side, and how many branches it examined and left. Each record has a ticket of its own.
fn came_to(found: &Settled) -> (u64, u64, usize) {
    (found.side, found.examined, found.left.len())
}

#[test]
fn star_by_hands(rt: HostRuntime) -> Result<(), Fail> {
    let alloc = rt.alloc();
    let star = star(alloc)?;
    for hands in [1, 2, 4, 16] {
        let all = search_by(&rt, alloc, &star, Sheet::Square, hands, 50_000, &OpenGate)?;
        assert_eq!(&rt; came_to(&all), (5, 257, 0));
        assert_eq!(&rt; all.records.len(), 257);
        let one = search_by(&rt, alloc, &star, Sheet::Square, hands, 1, &OpenGate)?;
        assert_eq!(&rt; came_to(&one), (5, 1, 1));
    }
    Ok(())
}

#[test]
fn strip_by_hands(rt: HostRuntime) -> Result<(), Fail> {
    let alloc = rt.alloc();
    let star = star(alloc)?;
    for hands in [1, 4] {
        let strip = Sheet::Strip { width: 4 };
        let found = search_by(&rt, alloc, &star, strip, hands, 200_000, &OpenGate)?;
        assert_eq!(&rt; came_to(&found), (5, 715, 0));
    }
    Ok(())
}

// What one hand offers is the least in the end, whichever hand finds it.
#[test]
fn better_by_hands(rt: HostRuntime) -> Result<(), Fail> {
    let alloc = rt.alloc();
    let tree = thrice_better(alloc)?;
    for hands in [1, 2, 4, 16] {
        let found = search_by(&rt, alloc, &tree, Sheet::Square, hands, 200_000, &OpenGate)?;
        assert_eq!(&rt; (found.side, found.left.len()), (9, 0));
    }
    Ok(())
}

// Neither hand gives up waiting for the other, so two threads met, and the second hand examined a branch.
#[test]
fn two_hands_meet(rt: HostRuntime) -> Result<(), Fail> {
    let alloc = rt.alloc();
    let star = star(alloc)?;
    let gate = HoldGate::new();
    let found = search_by(&rt, alloc, &star, Sheet::Square, 2, 50_000, &gate)?;
    assert_eq!(&rt; came_to(&found), (5, 257, 0));
    assert!(&rt; !gate.gave_up());
    Ok(())
}

// A hand alone waits in vain, and does all the same.
#[test]
fn one_hand_meets_none(rt: HostRuntime) -> Result<(), Fail> {
    let alloc = rt.alloc();
    let star = star(alloc)?;
    let gate = HoldGate::new();
    let found = search_by(&rt, alloc, &star, Sheet::Square, 1, 50_000, &gate)?;
    assert_eq!(&rt; came_to(&found), (5, 257, 0));
    assert!(&rt; gate.gave_up());
    Ok(())
}

// The search of a tree by a plain stack.
fn search_plainly(alloc: Global, tree: &Tree, budget: u64) -> Result<Settled, NoMemory>
    requires { budget ≤ most_budget }
{
    let metric = Metric::of(alloc, tree)?;
    let opening = open(alloc, &metric)?;
    let least = floor(alloc, &metric)?;
    let start = begin(alloc, &metric, opening)?;
    search(alloc, &metric, start, least.side, budget)
}

// A hand alone examines the same branches as a plain stack, which looks at the best side before each.
#[test]
fn one_hand_as_a_stack(rt: HostRuntime) -> Result<(), Fail> {
    let alloc = rt.alloc();
    let tree = thrice_better(alloc)?;
    for budget in [10, 100, 200_000] {
        let plain = search_plainly(alloc, &tree, budget)?;
        let found = search_by(&rt, alloc, &tree, Sheet::Square, 1, budget, &OpenGate)?;
        assert_eq!(&rt; came_to(&found), came_to(&plain));
    }
    Ok(())
}

// Two new workers on the star of five leaves.
fn two_workers(alloc: Global, metric: &Metric) -> Result<(Board, Worker, Worker), NoMemory>
    ensures first { IfOk result (λ r. Agrees metric.now.tree metric.now.sheet r.0 r.1 × (is_spent r.0.limit r.1.pass.tickets ≡ false)) }
    ensures second { IfOk result (λ r. Agrees metric.now.tree metric.now.sheet r.0 r.2 × (is_spent r.0.limit r.2.pass.tickets ≡ false)) }
    ensures limit { IfOk result (λ r. r.0.limit ≡ 50_000) }
    ensures hands { IfOk result (λ r. IsWhole r.1.hand.pool (r.1.hand ∷ r.2.hand ∷ [])) }
{
    let (board, mut workers) = hire(alloc, metric, 5, 2, 50_000)?;
    let Some(second) = workers.pop() else {
        return Err(NoMemory);
    };
    let Some(first) = workers.pop() else {
        return Err(NoMemory);
    };
    Ok((board, first, second))
}

// What a worker alone ends with: its answer, its records and the tasks that it keeps.
fn works_off(
    alloc: Global,
    metric: &Metric,
    board: &Board,
    worker: &mut Worker,
) -> (Left, usize, usize)
    requires { Agrees metric.now.tree metric.now.sheet board.now worker.old × (is_spent board.now.limit worker.old.pass.tickets ≡ false) × (board.now.limit ≡ 50_000) }
    ensures { IsSameWorker worker.old worker.new }
{
    let left = worker.work(alloc, metric, board, 4, 50_000, &OpenGate);
    (left, worker.records.len(), worker.kept.len())
}

// The second of two workers does all, on one thread, and leaves nothing to the first.
#[test]
fn one_after_the_other(rt: HostRuntime) -> Result<(), Fail> {
    let alloc = rt.alloc();
    let star = star(alloc)?;
    let metric = Metric::of(alloc, &star)?;
    let (board, mut first, mut second) = two_workers(alloc, &metric)?;
    let (left, made, kept) = works_off(alloc, &metric, &board, &mut second);
    assert!(&rt; matches!(left, Left::Idle));
    assert_eq!(&rt; (made, kept), (257, 0));
    let (left, made, kept) = works_off(alloc, &metric, &board, &mut first);
    assert!(&rt; matches!(left, Left::Idle));
    assert_eq!(&rt; (made, kept), (0, 0));
    let mut hands = Vec::new(alloc);
    hands.push(first.hand)?;
    hands.push(second.hand)?;
    let gathered = gather(alloc, hands)?;
    assert_eq!(&rt; gathered.left.len(), 0);
    Ok(())
}
