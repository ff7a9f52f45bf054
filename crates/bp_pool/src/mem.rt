//! Tries at deques in memory, which tell what they hold.
ghost use Rattle.std.specs.Prelude.{◌≡◌, ◌≢◌, ℕ, ◌+◌, ◌-◌, ◌<◌, ◌≤◌, List, [], ◌∷◌, ◌++◌, None, Some, IfNone, MatchOption, map, length, All};
ghost use Rattle.bp_base.specs.Limits.{most_hands};
ghost use Rattle.bp_pool.specs.Tries.{NoneFell, Rose, MatchStolen, PopsOwn, StealsFirst};
ghost use Rattle.bp_pool.specs.Mem.{MemView, IsSameMem};

use crate::count::count_up;
use crate::tries::{Stolen, Tries};
use bp_base::Task;
use std::marker::Model;

/// The tries of one hand at deques in memory, the newest task of each at its end.
#[derive(Drop)]
pub struct MemTries {
    pub number: u64,
    pub deques: Vec<Vec<Task>>,
    pub misses: Vec<u64>,
}

impl Model for MemTries {
    ghost use Rattle.bp_pool.specs.Mem.{MemView};

    ghost Value = { MemView };

    ghost use Rattle.bp_pool.specs.Memory.{mem_view, IsMem};

    ghost view = { mem_view };

    ghost invariant = { IsMem };
}

impl MemTries {
    fn own_number(&self) -> u64
        ensures { (result ≡ self.now.number) × (1 ≤ result) × (result ≤ length self.now.deques) }
    {
        self.number
    }

    fn hand_count(&self) -> u64
        ensures { (result ≡ length self.now.deques) × (result ≤ most_hands) }
    {
        self.deques.len() as u64
    }

    fn pop_own(&mut self) -> Option<Task>
        ensures same { IsSameMem self.old self.new }
        ensures counts { NoneFell self.old.misses self.new.misses }
        ensures none { IfNone result (Rose self.old.misses self.new.misses (self.old.number - 1)) }
        ensures deques { PopsOwn (Some self.old.deques) (self.old.number - 1) result (Some self.new.deques) }
    {
        let place = self.number as usize - 1;
        match take_last(&mut self.deques[place]) {
            Some(task) => Some(task),
            None => {
                count_up(&mut self.misses, place);
                None
            }
        }
    }

    fn steal_from(&mut self, from: u64) -> Stolen
        requires { (1 ≤ from) × (from ≤ length self.old.deques) × (from ≢ self.old.number) }
        ensures same { IsSameMem self.old self.new }
        ensures counts { NoneFell self.old.misses self.new.misses }
        ensures none { MatchStolen result (λ _. Unit {0}) (Rose self.old.misses self.new.misses (from - 1)) ⊥ }
        ensures deques { StealsFirst (Some self.old.deques) (from - 1) result (Some self.new.deques) }
    {
        let place = from as usize - 1;
        match take_first(&mut self.deques[place]) {
            Some(task) => Stolen::Task(task),
            None => {
                count_up(&mut self.misses, place);
                Stolen::Empty
            }
        }
    }
}

fn take_first(tasks: &mut Vec<Task>) -> Option<Task>
    ensures { MatchOption result ((tasks.old.items ≡ []) × (tasks.new.items ≡ [])) (λ t. tasks.old.items ≡ t ∷ tasks.new.items) }
{
    if tasks.is_empty() {
        return None;
    }
    Some(tasks.remove(0))
}

fn take_last(tasks: &mut Vec<Task>) -> Option<Task>
    ensures { MatchOption result ((tasks.old.items ≡ []) × (tasks.new.items ≡ [])) (λ t. tasks.old.items ≡ tasks.new.items ++ t ∷ []) }
{
    tasks.pop()
}

impl Tries for MemTries {
    ghost use Rattle.std.specs.Prelude.{Some, None, length};
    ghost use Rattle.bp_pool.specs.Mem.{MemView, no_counts, no_rest};

    ghost number = { λ m. m.number };

    ghost hands = { λ m. length m.deques };

    ghost misses = { λ m. m.misses };

    ghost lost = { no_counts };

    ghost taken = { λ m. None };

    ghost deques = { λ m. Some m.deques };

    ghost rest = { no_rest };

    fn number(&self) -> u64 {
        self.own_number()
    }

    fn hands(&self) -> u64 {
        self.hand_count()
    }

    fn pop(&mut self) -> Option<Task> {
        self.pop_own()
    }

    fn steal(&mut self, from: u64) -> Stolen {
        self.steal_from(from)
    }
}
