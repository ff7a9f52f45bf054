// Hands on threads, from the opening to a settled search.
ghost use Rattle.std.specs.Prelude.{◌≡◌, ◌<◌, ◌≤◌, ◌+◌, ◌++◌, ℕ, IfOk, OnOk, length, slice_index_or};
ghost use Rattle.bp_base.specs.Limits.{most_budget, most_hands, most_number};
ghost use Rattle.bp_base.specs.Tree.{leaf_count};
ghost use Rattle.bp_metric.specs.Floor.{IsFloorSide};
ghost use Rattle.bp_metric.specs.Opening.{IsOpening, side_of};
ghost use Rattle.bp_core.specs.Settled.{IsSettled};
ghost use Rattle.bp_core.specs.Underway.{IsUnderway};
ghost use Rattle.bp_incumbent.specs.Board.{PassView, new_pass};
ghost use Rattle.bp_pool.specs.Opens.{IsNewPool};
ghost use Rattle.bp_workers.specs.Gathered.{root};
ghost use Rattle.bp_workers.specs.Teams.{AreHired, HaveWorked, IsTeam, is_out};
ghost use Rattle.bp_workers.specs.Worked.{chosen};

use crate::worker::{Worker, lesser};
use bp_base::{Gate, Left, NoMemory, Path, Placement, Record, Sequence, Settled, Task};
use bp_incumbent::{Board, Pass};
use bp_metric::Metric;
use bp_pool::{Hand, gather, open};
use bp_stack::search;
use std::alloc::Global;
use std::thread;
use std::thread::Threads;

// What all workers come back with.
#[derive(Drop)]
struct Team {
    hands: Vec<Hand>,
    passes: Vec<Pass>,
    records: Vec<Record>,
    kept: Vec<Task>,
    best: Option<Placement>,
}

/// Searches by hands on threads, from the opening, that of the metric at its side. What they leave goes on as a plain stack on the
/// calling thread, by the same rules and with the next tickets, until nothing is left, as many as the budget are examined, or the
/// side, in grid units, is at or below the floor's. There are 1 to 16 hands, and the budget is
/// at most 200,000.
pub fn run_hands<R: Threads + Sync, G: Gate + Sync>(
    rt: &R,
    alloc: Global,
    metric: &Metric,
    opening: Placement,
    floor: u64,
    hands: u64,
    budget: u64,
    gate: &G,
) -> Result<Settled, NoMemory>
    requires opening { IsOpening metric.now.tree metric.now.sheet opening.points }
    requires side { opening.side ≡ side_of metric.now.sheet opening.points }
    requires floor { IsFloorSide metric.now.tree metric.now.sheet floor }
    requires hands { (1 ≤ hands) × (hands ≤ most_hands) }
    requires budget { budget ≤ most_budget }
    ensures { IfOk result (λ Z. IsSettled metric.now.tree metric.now.sheet budget Z) }
{
    let _leaves = metric.leaves();
    let (board, mut workers) = hire(alloc, metric, opening.side, hands, budget)?;
    all_work(
        rt,
        alloc,
        metric,
        &board,
        floor,
        budget,
        workers.as_mut_slice(),
        gate,
    );
    let team = come_back(alloc, metric, &board, workers)?;
    let found = settle(alloc, metric, board, team, opening, budget)?;
    search(alloc, metric, found, floor, budget)
}

/// A board at the opening's side in grid units, with so many tickets, and its workers, one for each hand of one pool whose root is the
/// empty path.
pub fn hire(
    alloc: Global,
    metric: &Metric,
    side: u64,
    hands: u64,
    budget: u64,
) -> Result<(Board, Vec<Worker>), NoMemory>
    requires side { side ≤ most_number }
    requires hands { (0 < hands) × (hands ≤ most_hands) }
    requires budget { budget ≤ most_budget }
    ensures board { IfOk result (λ r. (r.0.opening ≡ side) × (r.0.limit ≡ budget) × (r.0.passes ≡ hands)) }
    ensures workers { IfOk result (λ r. AreHired metric.now.tree metric.now.sheet r.0 side r.1.items) }
{
    let leaves = metric.leaves();
    let task = Task {
        path: Path::empty(alloc),
        bound: side,
    };
    let (board, passes) = Board::open(alloc, side, budget, hands)?;
    let all = open(alloc, hands, leaves, task)?;
    let room = room_for(budget, hands);
    let workers = seat(alloc, metric, &board, side, all, passes, room)?;
    Ok((board, workers))
}

// Room for a hand's share of the records, so that they are seldom moved to a larger place while it works.
fn room_for(budget: u64, hands: u64) -> u64
    requires hands { 0 < hands }
    requires budget { budget ≤ most_budget }
    ensures { result ≤ most_budget + 1 }
{
    budget / hands + 1
}

// A worker for each hand, with the pass of the same number.
fn seat(
    alloc: Global,
    _metric: &Metric,
    _board: &Board,
    _side: u64,
    mut all: Vec<Hand>,
    mut passes: Vec<Pass>,
    room: u64,
) -> Result<Vec<Worker>, NoMemory>
    requires side { _side ≤ most_number }
    requires count { (0 < length all.items) × (length passes.items ≡ length all.items) × (_board.now.passes ≡ length all.items) }
    requires hands { IsNewPool (length all.items) (leaf_count _metric.now.tree) (root _side) all.items }
    requires passes { (k : ℕ) (d : PassView) → k < length all.items → slice_index_or passes.items k d ≡ new_pass _board.now.id (k + 1) _side }
    ensures { IfOk result (λ workers. AreHired _metric.now.tree _metric.now.sheet _board.now _side workers.items) }
{
    let mut workers = Vec::new(alloc);
    while let Some(hand) = all.pop() {
        let Some(pass) = passes.pop() else {
            unreachable!()
        };
        let number = all.len() as u64 + 1;
        let worker = Worker::new(alloc, hand, pass, number, room)?;
        workers.insert(0, worker)?;
    }
    Ok(workers)
}

// Each worker works in a thread of its own.
fn all_work<R: Threads + Sync, G: Gate + Sync>(
    rt: &R,
    alloc: Global,
    metric: &Metric,
    board: &Board,
    floor: u64,
    budget: u64,
    workers: &mut [Worker],
    gate: &G,
)
    requires limit { budget ≡ board.now.limit }
    requires hired { (side : ℕ) × AreHired metric.now.tree metric.now.sheet board.now side workers.old }
    ensures { (side : ℕ) → AreHired metric.now.tree metric.now.sheet board.now side workers.old → HaveWorked metric.now.tree metric.now.sheet board.now side workers.new }
{
    let threads = workers.len();
    thread::for_each_mut(
        rt,
        workers,
        threads,
        &|_, worker| {
            let _left = worker.work(alloc, metric, board, floor, budget, gate);
        },
    );
}

// All workers come back, in whatever order. NoMemory where one of them had none.
fn come_back(
    alloc: Global,
    metric: &Metric,
    board: &Board,
    mut workers: Vec<Worker>,
) -> Result<Team, NoMemory>
    ensures { IfOk result (λ team. (side : ℕ) → HaveWorked metric.now.tree metric.now.sheet board.now side workers.items → IsTeam metric.now.tree metric.now.sheet board.now side team) }
{
    let mut team = Team {
        hands: Vec::new(alloc),
        passes: Vec::new(alloc),
        records: Vec::new(alloc),
        kept: Vec::new(alloc),
        best: None,
    };
    while let Some(worker) = workers.pop() {
        let Worker {
            hand,
            pass,
            records,
            mut kept,
            best,
            ended,
            ..
        } = worker;
        if ran_out(ended) {
            return Err(NoMemory);
        }
        team.hands.push(hand)?;
        team.passes.push(pass)?;
        add_records(&mut team.records, records)?;
        team.kept.append(&mut kept)?;
        team.best = lesser(team.best.take(), best);
    }
    Ok(team)
}

// Puts more records behind these. Where there are none yet, they stay where they are: those of one hand are never copied.
fn add_records(records: &mut Vec<Record>, mut more: Vec<Record>) -> Result<(), NoMemory>
    ensures { OnOk result (records.new.items ≡ records.old.items ++ more.items) }
{
    if records.is_empty() {
        *records = more;
        return Ok(());
    }
    records.append(&mut more)?;
    Ok(())
}

fn ran_out(ended: Option<Left>) -> bool
    ensures { result ≡ is_out ended }
{
    match ended {
        Some(Left::NoMemory) => true,
        _ => false,
    }
}

// What the hands have come to, once the pool is gathered and the board closed.
fn settle(
    alloc: Global,
    metric: &Metric,
    board: Board,
    team: Team,
    opening: Placement,
    budget: u64,
) -> Result<Settled, NoMemory>
    requires team { IsTeam metric.now.tree metric.now.sheet board opening.side team }
    requires opening { IsOpening metric.now.tree metric.now.sheet opening.points }
    requires side { opening.side ≡ side_of metric.now.sheet opening.points }
    requires budget { (budget ≡ board.limit) × (opening.side ≡ board.opening) }
    ensures { IfOk result (λ Z. IsUnderway metric.now.tree metric.now.sheet budget Z) }
{
    let Team {
        hands,
        passes,
        records,
        mut kept,
        best,
    } = team;
    let _leaves = metric.leaves();
    let gathered = gather(alloc, hands)?;
    let closing = board.close(alloc, passes)?;
    let mut left = gathered.left;
    left.append(&mut kept)?;
    let placement = choose(best, opening);
    Ok(Settled {
        records: Sequence::from_vec(records),
        left: Sequence::from_vec(left),
        side: closing.side,
        points: placement.points,
        examined: closing.tickets.min(budget),
    })
}

// The best placement, or else the opening, also where that is no worse.
fn choose(best: Option<Placement>, opening: Placement) -> Placement
    ensures { result ≡ chosen best opening }
{
    match best {
        None => opening,
        Some(placement) => {
            if opening.side <= placement.side {
                opening
            } else {
                placement
            }
        }
    }
}
