//! Tries at the deques of a pool, whoever keeps them.
ghost use Rattle.std.specs.Prelude.{◌≡◌, ℕ, ◌+◌, ◌-◌, ◌<◌, ◌≤◌, ◌≢◌, List, [], ◌∷◌, ◌++◌, Option, None, Some, IfNone, length, slice_index_or, slice_index};
ghost use Rattle.bp_base.specs.Limits.{most_hands};
ghost use Rattle.bp_base.specs.declared.record.Task.{Task};
ghost use Rattle.bp_pool.specs.Tries.{Rose, NoneFell, Grew, Stays, PopsOwn, StealsFirst, MatchStolen, MatchTake, EachRose, EachTried, SomeLost, of_stolen, place, TakesFirst};

use crate::hand::Hand;
use bp_base::Task;

/// The deques of a pool's hands, as one of them reaches them: it takes the last task of its own deque, or the first of another's,
/// and counts what it missed. The pool's own hand is one, and so is a list of deques in memory.
pub trait Tries {
    ghost use Rattle.std.specs.Prelude.{ℕ, List, Option};
    ghost use Rattle.bp_base.specs.declared.record.Task.{Task};
    ghost use Rattle.bp_pool.specs.Rest.{RestView};

    /// Which hand it is, and how many there are.
    ghost number: { Self → ℕ };

    ghost hands: { Self → ℕ };

    /// For each hand, how often its deque was seen empty, and how often a steal was lost.
    ghost misses: { Self → List ℕ };

    ghost lost: { Self → List ℕ };

    /// The tasks taken, where they are told.
    ghost taken: { Self → Option (List Task) };

    /// What each deque holds, where it is told.
    ghost deques: { Self → Option (List (List Task)) };

    /// What else it keeps; no try changes it.
    ghost rest: { Self → RestView };

    /// Which hand it is, from 1 on.
    fn number(&self) -> u64
        ensures number { result ≡ number self.now }
        ensures in_range { (1 ≤ result) × (result ≤ hands self.now) };

    /// How many hands there are.
    fn hands(&self) -> u64
        ensures hands { result ≡ hands self.now }
        ensures few { result ≤ most_hands };

    /// Takes the last task of the own deque, or none, which is counted: the deque was seen empty.
    fn pop(&mut self) -> Option<Task>
        ensures same { Stays (number self.old) (hands self.old) (rest self.old) (number self.new) (hands self.new) (rest self.new) }
        ensures counts { NoneFell (misses self.old) (misses self.new) × NoneFell (lost self.old) (lost self.new) }
        ensures none { IfNone result (Rose (misses self.old) (misses self.new) (number self.old - 1)) }
        ensures taken { Grew (taken self.old) result (taken self.new) }
        ensures deques { PopsOwn (deques self.old) (number self.old - 1) result (deques self.new) };

    /// Takes the first task of another hand's deque. Where it takes none that is counted: the deque was seen empty, or the steal was
    /// lost to another hand.
    fn steal(&mut self, from: u64) -> Stolen
        requires { (1 ≤ from) × (from ≤ hands self.old) × (from ≢ number self.old) }
        ensures same { Stays (number self.old) (hands self.old) (rest self.old) (number self.new) (hands self.new) (rest self.new) }
        ensures counts { NoneFell (misses self.old) (misses self.new) × NoneFell (lost self.old) (lost self.new) }
        ensures none { MatchStolen result (λ _. Unit {0}) (Rose (misses self.old) (misses self.new) (from - 1)) (Rose (lost self.old) (lost self.new) (from - 1)) }
        ensures taken { Grew (taken self.old) (of_stolen result) (taken self.new) }
        ensures deques { StealsFirst (deques self.old) (from - 1) result (deques self.new) };
}

/// What a try to steal gave.
#[derive(Drop)]
pub enum Stolen {
    Task(Task),
    Empty,
    Lost,
}

/// What a take gave.
#[derive(Drop)]
pub enum Take {
    Task(Task),
    Empty,
    Contended,
}

// The k-th other hand, in order and round.
fn other(number: u64, hands: u64, k: u64) -> u64
    requires { (1 ≤ number) × (number ≤ hands) × (hands ≤ most_hands) × (1 ≤ k) × (k < hands) }
    ensures place { result ≡ place number hands k + 1 }
    ensures in_range { (1 ≤ result) × (result ≤ hands) × (result ≢ number) }
{
    if number + k <= hands {
        number + k
    } else {
        number + k - hands
    }
}

/// A pop, and then a steal from each other hand in order and round, until there is a task.
pub fn take_from<Q: Tries>(tries: &mut Q) -> Take
    ensures same { Stays (Q.number tries.old) (Q.hands tries.old) (Q.rest tries.old) (Q.number tries.new) (Q.hands tries.new) (Q.rest tries.new) }
    ensures counts { NoneFell (Q.misses tries.old) (Q.misses tries.new) × NoneFell (Q.lost tries.old) (Q.lost tries.new) }
    ensures taken { MatchTake result (λ t. Grew (Q.taken tries.old) (Some t) (Q.taken tries.new)) (Grew (Q.taken tries.old) None (Q.taken tries.new)) (Grew (Q.taken tries.old) None (Q.taken tries.new)) }
    ensures deques { TakesFirst (Q.deques tries.old) (Q.number tries.old) (Q.hands tries.old) result (Q.deques tries.new) }
    ensures causes { MatchTake result (λ _. Unit {0}) (EachRose (Q.misses tries.old) (Q.misses tries.new) (Q.hands tries.old)) (Rose (Q.misses tries.old) (Q.misses tries.new) (Q.number tries.old - 1) × EachTried (Q.misses tries.old) (Q.misses tries.new) (Q.lost tries.old) (Q.lost tries.new) (Q.hands tries.old) × SomeLost (Q.lost tries.old) (Q.lost tries.new) (Q.hands tries.old)) }
{
    if let Some(task) = tries.pop() {
        return Take::Task(task);
    }
    let number = tries.number();
    let hands = tries.hands();
    let mut lost = false;
    for k in 1..hands {
        let from = other(number, hands, k);
        match tries.steal(from) {
            Stolen::Task(task) => return Take::Task(task),
            Stolen::Empty => {}
            Stolen::Lost => lost = true,
        }
    }
    if lost { Take::Contended } else { Take::Empty }
}

impl Tries for Hand {
    ghost use Rattle.std.specs.Prelude.{Some, None};
    ghost use Rattle.bp_pool.specs.Hands.{hands_of, rest_of_hand};

    ghost number = { λ h. h.number };

    ghost hands = { hands_of };

    ghost misses = { λ h. h.misses };

    ghost lost = { λ h. h.lost };

    ghost taken = { λ h. Some h.taken };

    ghost deques = { λ h. None };

    ghost rest = { rest_of_hand };

    fn number(&self) -> u64 {
        self.own_number()
    }

    fn hands(&self) -> u64 {
        self.hand_count()
    }

    fn pop(&mut self) -> Option<Task> {
        self.pop_own()
    }

    fn steal(&mut self, from: u64) -> Stolen {
        self.steal_from(from)
    }
}
