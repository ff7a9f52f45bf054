// Workers and their turns.
ghost use Rattle.std.specs.Prelude.{◌≡◌, ℕ, ◌+◌, ◌<◌, ◌≤◌, ◌||◌, true, false, min, None, Some, [], ◌++◌, IfNone, IfOk, MatchOption, OnOk, All, length, vec_len, vec_capacity};
ghost use Rattle.bp_base.specs.declared.point.Sheet.{Sheet};
ghost use Rattle.bp_base.specs.Limits.{most_number};
ghost use Rattle.bp_base.specs.Tree.{TreeValue, leaf_count};
ghost use Rattle.bp_incumbent.specs.Board.{BoardView, new_pass, offered};
ghost use Rattle.bp_incumbent.specs.Tickets.{is_spent};
ghost use Rattle.bp_pool.specs.Hands.{one_more};
ghost use Rattle.bp_pool.specs.Opens.{new_hand};
ghost use Rattle.bp_pool.specs.Rest.{PoolView};
ghost use Rattle.bp_pool.specs.Shares.{IsTaskOf};
ghost use Rattle.bp_workers.specs.declared.worker.Worker.{Worker as AnyWorker};
ghost use Rattle.bp_workers.specs.Agrees.{Agrees, HasCause, Holds, IsSameWorker, Keeps, is_last_ticket, is_no_memory};
ghost use Rattle.bp_workers.specs.Turns.{HasTurned, IsDrawn, NextIs};
ghost use Rattle.bp_workers.specs.Worked.{lesser as lesser_of};

use bp_base::{Gate, Left, NoMemory, Placement, Record, Sequence, Task};
use bp_incumbent::{Board, Pass};
use bp_metric::Metric;
use bp_pool::{Hand, Take};
use bp_turn::Examiner;
use std::alloc::Global;

/// A hand of a pool and a pass of a board, with what they have come to: the records, the tasks in keeping, the best placement, and what
/// `work` last answered.
#[derive(Drop)]
pub struct Worker {
    pub hand: Hand,
    pub pass: Pass,
    pub number: u64,
    pub records: Vec<Record>,
    pub kept: Vec<Task>,
    pub best: Option<Placement>,
    pub ended: Option<Left>,
}

// After so many takes in a row that gave no task, with none in keeping, a worker leaves.
const MOST_IDLE: u64 = 64;

// What a turn came to.
#[derive(Clone, Copy)]
pub enum Turned {
    Leaving(Left),
    NoTask,
    Drew(u64),
}

impl Worker {
    /// A worker that has done nothing, of this number, with room for so many records.
    pub fn new(
        alloc: Global,
        hand: Hand,
        pass: Pass,
        number: u64,
        room: u64,
    ) -> Result<Worker, NoMemory>
        ensures place { IfOk result (λ w. (w.number ≡ number) × (w.hand ≡ hand) × (w.pass ≡ pass)) }
        ensures ended { IfOk result (λ w. w.ended ≡ None) }
        ensures agrees { IfOk result (λ w. (T : TreeValue) (G : Sheet) (board : BoardView) (pool : PoolView) (opening : ℕ) (k j : ℕ) → hand ≡ new_hand pool k → pool.leaves ≡ leaf_count T → pass ≡ new_pass board.id j opening → opening ≤ most_number → Agrees T G board w) }
    {
        let records = Vec::with_capacity(alloc, room as usize)?;
        let kept = Vec::new(alloc);
        Ok(Worker {
            hand,
            pass,
            number,
            records,
            kept,
            best: None,
            ended: None,
        })
    }

    /// Takes tasks and examines them, turn by turn, until a side at or below the floor was loaded, a ticket at or above the limit was
    /// drawn, 64 takes in a row gave no task while none was in keeping, halt was read as set, or memory ran out, for which it halts its
    /// pass. Sides are in grid units. Afterwards it agrees with the metric's tree and the board too, save after NoMemory.
    pub fn work<G: Gate>(
        &mut self,
        alloc: Global,
        metric: &Metric,
        board: &Board,
        floor: u64,
        limit: u64,
        gate: &G,
    ) -> Left
        requires limit { limit ≡ board.now.limit }
        requires unspent { is_spent board.now.limit self.old.pass.tickets ≡ false }
        requires agrees { Agrees metric.now.tree metric.now.sheet board.now self.old }
        ensures same { IsSameWorker self.old self.new }
        ensures ended { self.new.ended ≡ Some result }
        ensures agrees { is_no_memory result ≡ false → Agrees metric.now.tree metric.now.sheet board.now self.new }
        ensures halts { self.new.pass.halted ≡ (self.old.pass.halted || is_no_memory result) }
        ensures unspent { is_spent board.now.limit self.new.pass.tickets ≡ is_last_ticket result }
        ensures cause { HasCause floor limit self.new result }
    {
        let left = self.turns(alloc, metric, board, floor, limit, gate);
        if let Left::NoMemory = left {
            board.halt(&mut self.pass);
        }
        self.ended = Some(left);
        left
    }

    // Takes turns until it leaves.
    fn turns<G: Gate>(
        &mut self,
        alloc: Global,
        metric: &Metric,
        board: &Board,
        floor: u64,
        limit: u64,
        gate: &G,
    ) -> Left
        requires limit { limit ≡ board.now.limit }
        requires unspent { is_spent board.now.limit self.old.pass.tickets ≡ false }
        requires agrees { Agrees metric.now.tree metric.now.sheet board.now self.old }
        ensures same { IsSameWorker self.old self.new × (self.new.pass.halted ≡ self.old.pass.halted) }
        ensures left { is_no_memory result ≡ false → Agrees metric.now.tree metric.now.sheet board.now self.new × HasCause floor limit self.new result }
        ensures unspent { is_spent board.now.limit self.new.pass.tickets ≡ is_last_ticket result }
    {
        let Ok(mut examiner) = Examiner::open(alloc, metric) else {
            return Left::NoMemory;
        };
        let mut children = Sequence::new(alloc);
        let mut next = 0;
        let mut idle = 0;
        loop {
            let turned = self.turn(
                alloc,
                metric,
                board,
                floor,
                limit,
                gate,
                &mut examiner,
                &mut children,
                next,
            );
            match turned {
                Turned::Leaving(left) => return left,
                Turned::Drew(ticket) => {
                    idle = 0;
                    next = ticket + 1;
                }
                Turned::NoTask => {
                    idle += 1;
                    if idle >= MOST_IDLE {
                        return Left::Idle;
                    }
                }
            }
        }
    }

    // One turn, up to its draw.
    fn turn<G: Gate>(
        &mut self,
        alloc: Global,
        metric: &Metric,
        board: &Board,
        floor: u64,
        limit: u64,
        gate: &G,
        examiner: &mut Examiner,
        children: &mut Sequence<Task>,
        _next: u64,
    ) -> Turned
        requires limit { limit ≡ board.now.limit }
        requires unspent { is_spent board.now.limit self.old.pass.tickets ≡ false }
        requires agrees { Agrees metric.now.tree metric.now.sheet board.now self.old }
        requires examiner { (examiner.old ≡ metric.now) × (children.old ≡ []) }
        requires next { NextIs _next self.old }
        ensures same { IsSameWorker self.old self.new × (self.new.pass.halted ≡ self.old.pass.halted) }
        ensures turned { HasTurned metric.now.tree metric.now.sheet board.now floor limit self.old self.new _next result }
        ensures examiner { (examiner.new ≡ metric.now) × (children.new ≡ []) }
    {
        gate.pass(self.number, self.records.len() as u64);
        if board.halted(&mut self.pass) {
            return Turned::Leaving(Left::Halted);
        }
        let side = board.side(&mut self.pass);
        if side <= floor {
            return Turned::Leaving(Left::AtFloor);
        }
        match self.next_task() {
            None => Turned::NoTask,
            Some(task) => self.draw(
                alloc, metric, board, limit, examiner, children, task, side, _next,
            ),
        }
    }

    // The next task: one that the hand takes, or else the last one in keeping.
    fn next_task(&mut self) -> Option<Task>
        ensures same { IsSameWorker self.old self.new × (self.new.pass ≡ self.old.pass) }
        ensures none { IfNone result ((self.new.kept.items ≡ []) × (self.new.hand.idle ≡ one_more self.old.hand.idle)) }
        ensures holds { (T : TreeValue) (G : Sheet) (board : BoardView) → Agrees T G board self.old → MatchOption result (Agrees T G board self.new) (λ t. Holds T G board self.new t) }
    {
        match self.hand.take() {
            Take::Task(task) => Some(task),
            Take::Empty | Take::Contended => self.kept.pop(),
        }
    }

    // Draws a ticket for a task in hand, and examines it.
    fn draw(
        &mut self,
        alloc: Global,
        metric: &Metric,
        board: &Board,
        limit: u64,
        examiner: &mut Examiner,
        children: &mut Sequence<Task>,
        task: Task,
        side: u64,
        _next: u64,
    ) -> Turned
        requires limit { limit ≡ board.now.limit }
        requires pass { (self.old.pass.board ≡ board.now.id) × (is_spent board.now.limit self.old.pass.tickets ≡ false) × (self.old.pass.fresh ≡ true) }
        requires side { (self.old.pass.last ≡ side) × (side ≤ most_number) }
        requires holds { Holds metric.now.tree metric.now.sheet board.now self.old task }
        requires examiner { (examiner.old ≡ metric.now) × (children.old ≡ []) }
        requires next { NextIs _next self.old }
        ensures same { IsSameWorker self.old self.new × (self.new.pass.halted ≡ self.old.pass.halted) }
        ensures turned { (floor : ℕ) (before : AnyWorker) → HasTurned metric.now.tree metric.now.sheet board.now floor limit before self.new _next result }
        ensures examiner { (examiner.new ≡ metric.now) × (children.new ≡ []) }
    {
        if self.records.reserve(1).is_err() || self.kept.reserve(4).is_err() {
            return Turned::Leaving(Left::NoMemory);
        }
        let ticket = board.draw(&mut self.pass);
        if ticket >= limit {
            self.kept.push_reserved(task);
            return Turned::Leaving(Left::Spent);
        }
        match self.examine(alloc, metric, board, examiner, children, task, side, ticket) {
            Ok(()) => Turned::Drew(ticket),
            Err(NoMemory) => Turned::Leaving(Left::NoMemory),
        }
    }

    // Examines the task in hand against the lesser of the side and its bound, and makes its record. There is room for that and for
    // four tasks in keeping.
    fn examine(
        &mut self,
        alloc: Global,
        metric: &Metric,
        board: &Board,
        examiner: &mut Examiner,
        children: &mut Sequence<Task>,
        task: Task,
        side: u64,
        ticket: u64,
    ) -> Result<(), NoMemory>
        requires board { self.old.pass.board ≡ board.now.id }
        requires drawn { IsDrawn metric.now.tree metric.now.sheet board.now self.old task side ticket }
        requires side { side ≤ most_number }
        requires examiner { (examiner.old ≡ metric.now) × (children.old ≡ []) }
        requires room { (vec_len self.old.records < vec_capacity self.old.records) × (vec_len self.old.kept + 4 ≤ vec_capacity self.old.kept) }
        ensures same { IsSameWorker self.old self.new × (self.new.pass.halted ≡ self.old.pass.halted) × (self.new.pass.tickets ≡ self.old.pass.tickets) }
        ensures agrees { OnOk result (Agrees metric.now.tree metric.now.sheet board.now self.new) }
        ensures examiner { (examiner.new ≡ metric.now) × (children.new ≡ []) }
    {
        let _leaves = metric.leaves();
        let Task { path, bound: given } = task;
        let bound = side.min(given);
        let (kind, placement) = examiner.judge_any(alloc, metric, &path, bound, children)?;
        self.records.push_reserved(Record {
            path,
            kind,
            ticket,
            given,
            bound,
        });
        self.offer(board, placement);
        self.place(children);
        Ok(())
    }

    // Offers a placement's side, and takes it as the best one where it is better.
    fn offer(&mut self, board: &Board, placement: Option<Placement>)
        requires { self.old.pass.board ≡ board.now.id }
        ensures same { (self.new.hand ≡ self.old.hand) × (self.new.number ≡ self.old.number) × (self.new.records ≡ self.old.records) × (self.new.kept ≡ self.old.kept) }
        ensures pass { MatchOption placement (self.new.pass ≡ self.old.pass) (λ p. (found : ℕ) × (self.new.pass ≡ offered self.old.pass p.side found)) }
        ensures best { self.new.best ≡ lesser_of placement self.old.best }
    {
        let Some(placement) = placement else {
            return;
        };
        let _found = board.offer(&mut self.pass, placement.side);
        self.best = lesser(Some(placement), self.best.take());
    }

    // Pushes the children, the last one first. Those that the deque hands back are kept.
    fn place(&mut self, children: &mut Sequence<Task>)
        requires room { length children.old + vec_len self.old.kept ≤ vec_capacity self.old.kept }
        requires pairs { All (IsTaskOf self.old.hand.pool.leaves) children.old }
        ensures same { IsSameWorker self.old self.new × (self.new.pass ≡ self.old.pass) }
        ensures agrees { (T : TreeValue) (G : Sheet) (board : BoardView) → Keeps T G board self.old.hand self.old.pass self.old.records.items (self.old.kept.items ++ children.old) self.old.best → Agrees T G board self.new }
        ensures empty { children.new ≡ [] }
    {
        while let Some(child) = children.pop() {
            if let Err(back) = self.hand.push(child) {
                self.kept.push_reserved(back);
            }
        }
    }
}

/// Of two best placements the one of the lesser side, and the second where both sides are equal.
pub fn lesser(first: Option<Placement>, second: Option<Placement>) -> Option<Placement>
    ensures { result ≡ lesser_of first second }
{
    let Some(p) = first else {
        return second;
    };
    let Some(q) = second else {
        return Some(p);
    };
    if q.side <= p.side { Some(q) } else { Some(p) }
}
