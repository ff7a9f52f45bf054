// What single events make of a hand.
ghost use Rattle.std.specs.Prelude.{◌≡◌, ◌<◌, ◌≤◌, [], ◌∷◌, ℕ, List, length, MatchOption, OnErr, OnOk};
ghost use Rattle.bp_base.specs.declared.point.Placement.{Placement as AnyPlacement};
ghost use Rattle.bp_base.specs.declared.record.Left.{Left as AnyLeft};
ghost use Rattle.bp_base.specs.declared.record.Task.{Task as AnyTask};
ghost use Rattle.bp_base.specs.Limits.{most_number};
ghost use Rattle.bp_branch.specs.Branches.{IsBranch};
ghost use Rattle.bp_turn.specs.declared.examining.Turn.{Turn};
ghost use Rattle.bp_turn.specs.Turns.{IsTurn};
ghost use Rattle.bp_machine.specs.declared.place.Place.TheVariants.{Holding, Drawn, Offering, Leaving, Gone};
ghost use Rattle.bp_machine.specs.State.{HandValue};
ghost use Rattle.bp_machine.specs.Steps.{EndsTake, Keeps, Pops, Pushes, TriesNext, drawn, examined, holds, idles, loaded, most_empty_takes, next_hand, offered, place_after, place_with};

use crate::Place;
use crate::hand::Hand;
use bp_base::{Left, NoMemory, Placement, Record, RecordKind, Task};
use bp_metric::Metric;
use bp_turn::Examiner;
use std::alloc::Global;
use std::mem;

// So many empty takes in a row, and a hand leaves.
const MOST_EMPTY_TAKES: u64 = 64;

impl Hand {
    /// The hand has loaded the side word.
    pub fn load(&mut self, side: u64, floor: u64)
        ensures { self.new ≡ loaded side floor self.old }
    {
        self.known = side;
        self.place = if floor < side {
            Place::Taking
        } else {
            Place::Leaving {
                left: Left::AtFloor,
            }
        };
    }

    /// A task comes into the hand.
    pub fn hold(&mut self, task: Task)
        ensures { self.new ≡ holds self.old task }
    {
        self.place = Place::Holding { task };
        self.empty_takes = 0;
    }

    /// The hand gives the first task of its deque, if there is one.
    pub fn give(&mut self) -> Option<Task>
        ensures { MatchOption result ((self.old.deque ≡ []) × (self.new ≡ self.old)) (λ t. (rest : List AnyTask) × (self.old.deque ≡ t ∷ rest) × (self.new ≡ record self.old { deque = rest })) }
    {
        self.deque.pop_front()
    }

    fn idle(&mut self)
        requires { self.old.empty_takes < most_empty_takes }
        ensures { self.new ≡ idles self.old }
    {
        self.place = if self.empty_takes + 1 < MOST_EMPTY_TAKES {
            Place::Ready
        } else {
            Place::Leaving { left: Left::Idle }
        };
        self.empty_takes += 1;
    }

    fn end_take(&mut self)
        requires { self.old.empty_takes < most_empty_takes }
        ensures { EndsTake self.old self.new }
    {
        match self.kept.pop() {
            Some(task) => self.hold(task),
            None => self.idle(),
        }
    }

    /// The hand, which has this number, has found the deque of the hand that it tried empty.
    pub fn try_next(&mut self, hands: u64, number: u64, tried: u64)
        requires { self.old.empty_takes < most_empty_takes }
        ensures { TriesNext hands number tried self.old self.new }
    {
        let from = next_hand(hands, tried);
        if from == number {
            self.end_take();
        } else {
            self.place = Place::Trying { from };
        }
    }

    /// The hand, which has this number, has tried to steal from another one, which gave this.
    pub fn receive(&mut self, hands: u64, number: u64, tried: u64, stolen: Option<Task>)
        requires { self.old.empty_takes < most_empty_takes }
        ensures { MatchOption stolen (TriesNext hands number tried self.old self.new) (λ t. self.new ≡ holds self.old t) }
    {
        match stolen {
            Some(task) => self.hold(task),
            None => self.try_next(hands, number, tried),
        }
    }

    /// The hand, which has this number, pops from its own deque.
    pub fn pop(&mut self, hands: u64, number: u64)
        requires { self.old.empty_takes < most_empty_takes }
        ensures { Pops hands number self.old self.new }
    {
        match self.deque.pop_back() {
            Some(task) => self.hold(task),
            None => self.try_next(hands, number, number),
        }
    }

    /// The hand draws this ticket for the task that it holds. After NoMemory nothing changed.
    pub fn draw(&mut self, ticket: u64, budget: u64) -> Result<(), NoMemory>
        requires { (t : AnyTask) × (self.old.place ≡ Holding t) }
        ensures ok { OnOk result ((t : AnyTask) × (self.old.place ≡ Holding t) × (self.new ≡ drawn ticket budget self.old t)) }
        ensures err { OnErr result (self.new ≡ self.old) }
    {
        if ticket >= budget {
            self.kept.reserve(1)?;
        }
        let Place::Holding { task } = mem::replace(&mut self.place, Place::Ready) else {
            unreachable!()
        };
        if ticket < budget {
            self.place = Place::Drawn { task, ticket };
        } else {
            self.kept.push_reserved(task);
            self.place = Place::Leaving { left: Left::Spent };
        }
        Ok(())
    }

    /// The hand examines the task that it drew a ticket for. After NoMemory nothing changed.
    pub fn examine(
        &mut self,
        alloc: Global,
        metric: &Metric,
        examiner: &mut Examiner,
    ) -> Result<(), NoMemory>
        requires metric { metric.now ≡ examiner.old }
        requires drawn { (t : AnyTask) × (n : ℕ) × (self.old.place ≡ Drawn t n) × IsBranch metric.now.tree t.path × (t.bound ≤ most_number) }
        requires empty { self.old.unplaced ≡ [] }
        ensures metric { examiner.new ≡ examiner.old }
        ensures ok { OnOk result ((t : AnyTask) × (n : ℕ) × (self.old.place ≡ Drawn t n) × ((turn : Turn) × (children : List AnyTask) × IsTurn metric.now.tree metric.now.sheet t self.old.known n children turn × (self.new ≡ examined self.old turn children))) }
        ensures err { OnErr result (self.new ≡ self.old) }
    {
        self.records.reserve(1)?;
        let Place::Drawn { task, .. } = &self.place else {
            unreachable!()
        };
        let bound = self.known.min(task.bound);
        let (kind, placement) = examiner.judge(
            alloc,
            metric,
            &task.path,
            bound,
            &mut self.unplaced,
        )?;
        let next = place_after(&kind, placement);
        let Place::Drawn { task, ticket } = mem::replace(&mut self.place, next) else {
            unreachable!()
        };
        let Task { path, bound: given } = task;
        self.records.push_reserved(Record {
            path,
            kind,
            ticket,
            given,
            bound,
        });
        Ok(())
    }

    /// The hand offers the side of the placement that it holds, which is the answer.
    pub fn offer(&mut self) -> u64
        requires { (p : AnyPlacement) × (self.old.place ≡ Offering p) }
        ensures { (p : AnyPlacement) × (self.old.place ≡ Offering p) × (result ≡ p.side) × (self.new ≡ offered self.old p) }
    {
        let Place::Offering { placement } = mem::replace(&mut self.place, Place::Ready) else {
            unreachable!()
        };
        let side = placement.side;
        let is_better = match &self.best {
            None => true,
            Some(best) => side < best.side,
        };
        if is_better {
            self.best = Some(placement);
        }
        side
    }

    /// The hand puts its last child at the back of its deque. After NoMemory nothing changed.
    pub fn push(&mut self) -> Result<(), NoMemory>
        requires { 0 < length self.old.unplaced }
        ensures ok { OnOk result (Pushes self.old self.new) }
        ensures err { OnErr result (self.new ≡ self.old) }
    {
        self.deque.reserve(1)?;
        if let Some(task) = self.unplaced.pop() {
            self.deque.push_back_reserved(task);
        }
        self.place_next();
        Ok(())
    }

    /// The hand keeps its last child. After NoMemory nothing changed.
    pub fn keep(&mut self) -> Result<(), NoMemory>
        requires { 0 < length self.old.unplaced }
        ensures ok { OnOk result (Keeps self.old self.new) }
        ensures err { OnErr result (self.new ≡ self.old) }
    {
        self.kept.reserve(1)?;
        if let Some(task) = self.unplaced.pop() {
            self.kept.push_reserved(task);
        }
        self.place_next();
        Ok(())
    }

    // It goes on placing children while any is left.
    fn place_next(&mut self)
        ensures { self.new ≡ record self.old { place = place_with self.old.unplaced } }
    {
        self.place = if self.unplaced.len() == 0 {
            Place::Ready
        } else {
            Place::Pushing
        };
    }

    /// The hand leaves.
    pub fn leave(&mut self)
        requires { (l : AnyLeft) × (self.old.place ≡ Leaving l) }
        ensures { (l : AnyLeft) × (self.old.place ≡ Leaving l) × (self.new ≡ record self.old { place = Gone l }) }
    {
        let Place::Leaving { left } = self.place else {
            unreachable!()
        };
        self.place = Place::Gone { left };
    }
}

// Where a hand stands after a record of this kind, which solved its path where there is a placement.
fn place_after(kind: &RecordKind, placement: Option<Placement>) -> Place
    ensures { result ≡ place_after kind.now placement }
{
    match (kind, placement) {
        (RecordKind::Split { .. }, _) => Place::Pushing,
        (RecordKind::Closed { .. }, None) => Place::Ready,
        (RecordKind::Closed { .. }, Some(placement)) => Place::Offering { placement },
    }
}

// The hand after this one of so many, in rising order and round.
fn next_hand(hands: u64, number: u64) -> u64
    ensures { result ≡ next_hand hands number }
{
    if number < hands { number + 1 } else { 1 }
}
