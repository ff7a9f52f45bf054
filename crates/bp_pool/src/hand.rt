//! The hands of a pool: each has a deque, and a pass on every deque.
ghost use Rattle.std.specs.Prelude.{◌≡◌, ◌≢◌, ℕ, ◌+◌, ◌-◌, ◌^◌, ◌<◌, ◌≤◌, List, [], ◌∷◌, ◌++◌, IfNone, IfSome, MatchOption, MatchResult, length, All, None, Some};
ghost use Rattle.std.specs.List.{sum_by};
ghost use Rattle.crossbeam_deque.specs.Handles.{view, IsPassOf, stealer_deque};
ghost use Rattle.bp_base.specs.Bags.{AreSame};
ghost use Rattle.bp_base.specs.Limits.{most_hands};
ghost use Rattle.bp_base.specs.declared.record.Task.{Task};
ghost use Rattle.bp_pool.specs.Shares.{IsTaskOf, Works};
ghost use Rattle.bp_pool.specs.Tries.{Stays, NoneFell, Rose, Grew, MatchStolen, MatchTake, with_task, of_stolen};
ghost use Rattle.bp_pool.specs.Hands.{HandView, hands_of, rest_of_hand, IsSameHand, idle_after, IsAllTaken, HasCauses, of_take, top};
ghost use Rattle.std.specs.Prelude.{min, IfOk, slice_get, replicate};
ghost use Rattle.crossbeam_deque.specs.Handles.{worker_deque};
ghost use Rattle.bp_pool.specs.Kept.{IsTheft, taken_by, deque_of, deques_of, total_of, given_to};
ghost use Rattle.bp_pool.specs.Rows.{IsParts};
ghost use Rattle.bp_pool.specs.Opens.{IsLeft, IsRow, facts_in, new_hand};

use crate::count::count_up;
use crate::deque::{Owner, TaskPass, Thief, pop, push, steal};
use crate::tries::{Stolen, Take, take_from};
use bp_base::{NoMemory, Task};
use crossbeam_deque::Steal;
use std::alloc::Global;
use std::marker::Model;

/// A pass on a hand's deque, which stands at a place among the pool's deques.
#[derive(Drop)]
pub struct Theft {
    pub place: usize,
    pub thief: Thief,
    pub pass: TaskPass,
}

impl Theft {
    /// Takes the first task.
    fn steal(&mut self) -> Stolen
        requires { IsPassOf (stealer_deque self.old.thief) self.old.pass × Works (view self.old.pass) }
        ensures same { (self.new.place ≡ self.old.place) × (deque_of self.new ≡ deque_of self.old) }
        ensures theft { (each leaves : ℕ) → IsTheft each leaves self.old → IsTheft each leaves self.new }
        ensures taken { MatchStolen result (λ t. ((h : Task → ℕ) → sum_by h (taken_by self.new) ≡ sum_by h (taken_by self.old) + h t) × IsTaskOf (view self.old.pass).facts.leaves t) (taken_by self.new ≡ taken_by self.old) (taken_by self.new ≡ taken_by self.old) }
    {
        match steal(&self.thief, &mut self.pass) {
            Steal::Success(task) => Stolen::Task(task),
            Steal::Empty => Stolen::Empty,
            Steal::Retry => Stolen::Lost,
        }
    }
}

/// A hand of a pool. It has a deque of its own, and takes tasks from all.
#[derive(Drop)]
pub struct Hand {
    number: u64,
    idle: u64,
    pushes: u64,
    takes: u64,
    own: Owner,
    thefts: Vec<Theft>,
    misses: Vec<u64>,
    lost: Vec<u64>,
}

impl Model for Hand {
    ghost use Rattle.bp_pool.specs.Hands.{HandView};

    ghost Value = { HandView };

    ghost use Rattle.bp_pool.specs.Kept.{hand_view, IsHand};

    ghost view = { hand_view };

    ghost invariant = { IsHand };
}

impl Hand {
    /// A hand that has done nothing.
    pub(crate) fn new(
        alloc: Global,
        number: u64,
        hands: u64,
        _leaves: u64,
        own: Owner,
        thefts: Vec<Theft>,
    ) -> Result<Hand, NoMemory>
        requires own { IsLeft _leaves 1 own }
        requires row { IsRow _leaves hands (deques_of thefts.items) thefts.items }
        requires facts { ((facts_in own).total ≡ total_of hands) × ((facts_in own).given ≡ given_to number (facts_in own).root) }
        requires number { (1 ≤ number) × (number ≤ hands) × (hands ≤ most_hands) }
        requires place { slice_get (deques_of thefts.items) (number - 1) ≡ Some (worker_deque own) }
        ensures { IfOk result (λ h. h ≡ new_hand (record { deques = deques_of thefts.items; leaves = (facts_in own).leaves; root = (facts_in own).root }) number) }
    {
        let misses = zeros(alloc, hands)?;
        let lost = zeros(alloc, hands)?;
        Ok(Hand {
            number,
            idle: 0,
            pushes: 0,
            takes: 0,
            own,
            thefts,
            misses,
            lost,
        })
    }

    /// Adds a task at the back of the own deque. The task comes back where the deque found no room; then nothing changed.
    pub fn push(&mut self, task: Task) -> Result<(), Task>
        requires { IsTaskOf self.old.pool.leaves task }
        ensures hand { IsSameHand self.old self.new × (self.new.taken ≡ self.old.taken) × (self.new.misses ≡ self.old.misses) × (self.new.lost ≡ self.old.lost) × (self.new.idle ≡ self.old.idle) }
        ensures pushed { MatchResult result (λ _. self.new.pushed ≡ self.old.pushed ++ task ∷ []) (λ t. (t ≡ task) × (self.new.pushed ≡ self.old.pushed)) }
    {
        push(&mut self.own, task)?;
        self.pushes = self.pushes.saturating_add(1);
        Ok(())
    }

    /// Takes the last task of the own deque. Where it gives none, it tries once to steal the first task of each other hand, beginning with the next one, in rising order and round, until it has a task. No answer tells that the deques are empty, save in a pool of one hand: there Empty comes exactly where all that was pushed was taken, the root among it, and Contended never.
    pub fn take(&mut self) -> Take
        ensures hand { IsSameHand self.old self.new × (self.new.pushed ≡ self.old.pushed) × (self.new.idle ≡ idle_after result self.old.idle) }
        ensures counts { NoneFell self.old.misses self.new.misses × NoneFell self.old.lost self.new.lost }
        ensures taken { AreSame self.new.taken (with_task self.old.taken (of_take result)) }
        ensures good { MatchTake result (IsTaskOf self.old.pool.leaves) (Unit {0}) (Unit {0}) }
        ensures causes { HasCauses self.old self.new result }
        ensures alone { hands_of self.old ≡ 1 → MatchTake result (λ _. ¬ IsAllTaken self.old) (IsAllTaken self.old) ⊥ }
    {
        let taken = self.try_all();
        self.idle = next_idle(&taken, self.idle);
        taken
    }

    fn try_all(&mut self) -> Take
        ensures hand { IsSameHand self.old self.new × (rest_of_hand self.new ≡ rest_of_hand self.old) }
        ensures counts { NoneFell self.old.misses self.new.misses × NoneFell self.old.lost self.new.lost }
        ensures taken { AreSame self.new.taken (with_task self.old.taken (of_take result)) }
        ensures causes { HasCauses self.old self.new result }
        ensures alone { hands_of self.old ≡ 1 → MatchTake result (λ _. ¬ IsAllTaken self.old) (IsAllTaken self.old) ⊥ }
    {
        if self.hand_count() == 1 {
            return self.pop_alone();
        }
        self.try_each()
    }

    // The take in a pool of one hand.
    fn pop_alone(&mut self) -> Take
        requires { hands_of self.old ≡ 1 }
        ensures hand { IsSameHand self.old self.new × (rest_of_hand self.new ≡ rest_of_hand self.old) }
        ensures counts { NoneFell self.old.misses self.new.misses × NoneFell self.old.lost self.new.lost }
        ensures taken { AreSame self.new.taken (with_task self.old.taken (of_take result)) }
        ensures causes { HasCauses self.old self.new result }
        ensures alone { MatchTake result (λ _. ¬ IsAllTaken self.old) (IsAllTaken self.old) ⊥ }
    {
        let _number = self.own_number();
        match self.pop_own() {
            Some(task) => Take::Task(task),
            None => Take::Empty,
        }
    }

    // The take in a pool of several hands.
    fn try_each(&mut self) -> Take
        ensures hand { IsSameHand self.old self.new × (rest_of_hand self.new ≡ rest_of_hand self.old) }
        ensures counts { NoneFell self.old.misses self.new.misses × NoneFell self.old.lost self.new.lost }
        ensures taken { AreSame self.new.taken (with_task self.old.taken (of_take result)) }
        ensures causes { HasCauses self.old self.new result }
    {
        take_from(self)
    }

    /// Its own deque, and its passes.
    pub(crate) fn into_parts(self) -> (Owner, Vec<Theft>)
        ensures { IsParts self result.0 result.1.items }
    {
        let Hand { own, thefts, .. } = self;
        (own, thefts)
    }

    /// How many tasks it pushed, and how many it took.
    pub(crate) fn counts(&self) -> (u64, u64)
        ensures { (result.0 ≡ min (length self.now.pushed) top) × (result.1 ≡ min (length self.now.taken) top) }
    {
        (self.pushes, self.takes)
    }

    pub(crate) fn own_number(&self) -> u64
        ensures { (result ≡ self.now.number) × (1 ≤ result) × (result ≤ hands_of self.now) }
    {
        self.number
    }

    pub(crate) fn hand_count(&self) -> u64
        ensures { (result ≡ hands_of self.now) × (result ≤ most_hands) }
    {
        self.thefts.len() as u64
    }

    /// Takes the last task of the own deque. A pop that gives none is counted.
    pub(crate) fn pop_own(&mut self) -> Option<Task>
        ensures hand { IsSameHand self.old self.new × (rest_of_hand self.new ≡ rest_of_hand self.old) }
        ensures counts { NoneFell self.old.misses self.new.misses × NoneFell self.old.lost self.new.lost }
        ensures none { IfNone result (Rose self.old.misses self.new.misses (self.old.number - 1)) }
        ensures taken { AreSame self.new.taken (with_task self.old.taken result) }
        ensures good { IfSome result (IsTaskOf self.old.pool.leaves) }
        ensures alone { hands_of self.old ≡ 1 → MatchOption result (IsAllTaken self.old) (λ _. ¬ IsAllTaken self.old) }
    {
        match pop(&mut self.own) {
            Some(task) => {
                self.takes = self.takes.saturating_add(1);
                Some(task)
            }
            None => {
                count_up(&mut self.misses, self.number as usize - 1);
                None
            }
        }
    }

    /// Takes the first task of another hand's deque. A steal that gives none is counted.
    pub(crate) fn steal_from(&mut self, from: u64) -> Stolen
        requires { (1 ≤ from) × (from ≤ hands_of self.old) × (from ≢ self.old.number) }
        ensures hand { IsSameHand self.old self.new × (rest_of_hand self.new ≡ rest_of_hand self.old) }
        ensures counts { NoneFell self.old.misses self.new.misses × NoneFell self.old.lost self.new.lost }
        ensures none { MatchStolen result (λ _. Unit {0}) (Rose self.old.misses self.new.misses (from - 1)) (Rose self.old.lost self.new.lost (from - 1)) }
        ensures taken { AreSame self.new.taken (with_task self.old.taken (of_stolen result)) }
    {
        let place = from as usize - 1;
        match self.thefts[place].steal() {
            Stolen::Task(task) => {
                self.takes = self.takes.saturating_add(1);
                Stolen::Task(task)
            }
            Stolen::Empty => {
                count_up(&mut self.misses, place);
                Stolen::Empty
            }
            Stolen::Lost => {
                count_up(&mut self.lost, place);
                Stolen::Lost
            }
        }
    }
}

fn zeros(alloc: Global, hands: u64) -> Result<Vec<u64>, NoMemory>
    ensures { IfOk result (λ v. v.items ≡ replicate hands 0) }
{
    let mut counts = Vec::new(alloc);
    counts.resize(hands as usize, 0)?;
    Ok(counts)
}

// How many takes in a row gave none, after this one.
fn next_idle(taken: &Take, idle: u64) -> u64
    ensures { result ≡ idle_after taken.now idle }
{
    match taken {
        Take::Task(_) => 0,
        Take::Empty | Take::Contended => idle.saturating_add(1),
    }
}
