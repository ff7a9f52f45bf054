// One hand of the machine.
ghost use Rattle.std.specs.Prelude.{◌≡◌, ◌∷◌, ◌++◌, [], OnErr, OnOk};
ghost use Rattle.bp_machine.specs.State.{HandValue, fresh};

use crate::Place;
use bp_base::{NoMemory, Placement, Record, Sequence, Task};
use std::alloc::Global;
use std::collections::VecDeque;
use std::marker::Model;

/// One hand: where it stands in its turn, its tasks, its records and what it knows.
#[derive(Drop)]
pub struct Hand {
    pub place: Place,
    pub deque: VecDeque<Task>,
    pub kept: Vec<Task>,
    pub unplaced: Sequence<Task>,
    pub known: u64,
    pub records: Vec<Record>,
    pub best: Option<Placement>,
    pub empty_takes: u64,
}

impl Model for Hand {
    ghost use Rattle.bp_machine.specs.State.{HandValue};

    ghost Value = { HandValue };

    ghost view = { λ h. record { place = h.place; deque = h.deque.items; kept = h.kept.items; unplaced = h.unplaced; known = h.known; records = h.records.items; best = h.best; empty_takes = h.empty_takes } };
}

impl Hand {
    /// A hand before its first event, without tasks.
    pub fn open(alloc: Global, side: u64) -> Hand
        ensures { result ≡ fresh side [] }
    {
        Hand {
            place: Place::Ready,
            deque: VecDeque::new(alloc),
            kept: Vec::new(alloc),
            unplaced: Sequence::new(alloc),
            known: side,
            records: Vec::new(alloc),
            best: None,
            empty_takes: 0,
        }
    }

    /// Puts a task at the back of its deque. After NoMemory nothing changed but that the task is gone.
    pub fn put(&mut self, task: Task) -> Result<(), NoMemory>
        ensures ok { OnOk result (self.new ≡ record self.old { deque = self.old.deque ++ task ∷ [] }) }
        ensures err { OnErr result (self.new ≡ self.old) }
    {
        self.deque.push_back(task)?;
        Ok(())
    }
}
