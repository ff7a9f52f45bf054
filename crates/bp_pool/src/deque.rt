//! One deque of tasks: what it was given and what was pushed is what it holds and what all passes took.
ghost use Rattle.std.specs.Prelude.{◌≡◌, ℕ, ◌+◌, ◌<◌, ◌≤◌, List, [], ◌∷◌, ◌++◌, IfOk, IfErr, MatchOption, MatchResult, length, All};
ghost use Rattle.std.specs.List.{sum_by};
ghost use Rattle.bp_base.specs.declared.record.Task.{Task};
ghost use Rattle.crossbeam_deque.specs.Steals.{MatchSteal};
ghost use Rattle.crossbeam_deque.specs.Handles.{view, IsPassOf, SamePass, worker_deque, stealer_deque, worker_view, worker_flavor, stealer_flavor, SameWorker};
ghost use Rattle.bp_base.specs.Bags.{AreSame};
ghost use Rattle.bp_pool.specs.Shares.{untold, facts_of, fresh, with_pushed, with_taken, with_given, dealt_rest, dealt_one, dealt_none, both, IsDone, Deals, Works, HasAll, pushed_of, taken_of, count_of, IsTaskOf, none};

use bp_base::Task;
use crossbeam_deque::protocol::{Join, Outcome, Protocol, Split};
use crossbeam_deque::{Pass, Steal, Stealer, Worker};
use std::alloc::{AllocError, Global};
use std::collections::LinkedList;
use std::marker::{Brand, PhantomData};

// What a deque is told once: how many leaves the pool has and how many rights the deque, the pool's root, and the tasks that the deque was given. No value of it is made.
pub struct Facts {
    pub leaves: u64,
    pub total: u64,
    pub root: Task,
    pub given: LinkedList<Task>,
}

// What was done under one right to the deque. No value of it is made.
pub struct Deeds {
    pub pushed: LinkedList<Task>,
    pub taken: LinkedList<Task>,
}

// The rights that a pass has, with what was done under each. No value of it is made.
pub struct Rights {
    pub facts: Facts,
    pub deeds: LinkedList<Deeds>,
}

pub struct Kept;

impl Protocol<Task, Rights> for Kept {
    ghost use Rattle.bp_pool.specs.Shares.{KeepsTasks, fresh, untold, none};

    ghost holds = { KeepsTasks };

    ghost first = { fresh untold };

    ghost guest = { none };
}

// The deque is given its first tasks.
pub struct Giving;

impl Outcome<Task, Rights> for Giving {
    ghost use Rattle.std.specs.Prelude.{◌≡◌};
    ghost use Rattle.bp_pool.specs.Shares.{with_given};

    ghost then = { λ v xs w. w ≡ with_given v xs };
}

pub struct Pushing;

impl Outcome<Task, Rights> for Pushing {
    ghost use Rattle.std.specs.Prelude.{◌≡◌};
    ghost use Rattle.bp_pool.specs.Shares.{with_pushed};

    ghost then = { λ v xs w. w ≡ with_pushed v xs };
}

pub struct Taking;

impl Outcome<Task, Rights> for Taking {
    ghost use Rattle.bp_pool.specs.Shares.{Takes};

    ghost then = { Takes };
}

// A pop, which tells the more where all passes are back.
pub struct Draining;

impl Outcome<Task, Rights> for Draining {
    ghost use Rattle.bp_pool.specs.Shares.{Drains, IsDone};

    ghost then = { Drains };

    ghost empty = { IsDone };
}

// A right is cut off.
pub struct Cuts;

impl Split<Rights> for Cuts {
    ghost use Rattle.bp_pool.specs.Shares.{dealt_rest, dealt_one};

    ghost left = { dealt_rest };

    ghost right = { dealt_one };
}

// A pass without a right.
pub struct Bares;

impl Split<Rights> for Bares {
    ghost use Rattle.bp_pool.specs.Shares.{dealt_none};

    ghost left = { λ v. v };

    ghost right = { dealt_none };
}

// What a deque is told. One call picks it, for the proof alone.
pub trait Told {
    ghost use Rattle.bp_pool.specs.declared.deque.Facts.{Facts};

    ghost facts: { Facts };
}

impl Told for Brand {
    ghost use Rattle.bp_pool.specs.Shares.{untold};

    ghost facts = { untold };
}

pub struct Tells<F> {
    of: PhantomData<F>,
}

impl<F: Told> Split<Rights> for Tells<F> {
    ghost use Rattle.bp_pool.specs.Shares.{fresh, none};

    ghost left = { λ v. fresh F.facts };

    ghost right = { λ v. none };
}

pub struct Adds;

impl Join<Rights> for Adds {
    ghost use Rattle.bp_pool.specs.Shares.{both, none};

    ghost both = { both };

    ghost spent = { none };
}

pub type Owner = Worker<Task, Global, Rights, Kept>;

pub type Thief = Stealer<Task, Global, Rights, Kept>;

pub type TaskPass = Pass<Task, Rights>;

pub fn open(alloc: Global) -> Result<Owner, AllocError>
    ensures { IfOk result (λ w. (worker_flavor w ≡ 1) × (worker_view w ≡ fresh untold)) }
{
    Owner::lifo_as(alloc, 64)
}

fn tell_with<F: Told>(owner: &mut Owner, _leaves: u64, _total: u64, _root: &Task) -> TaskPass
    requires fresh { worker_view owner.old ≡ fresh untold }
    requires facts { F.facts ≡ facts_of _leaves _total _root.now [] }
    ensures same { SameWorker owner.old owner.new × IsPassOf (worker_deque owner.old) result }
    ensures told { worker_view owner.new ≡ fresh F.facts }
{
    owner.another::<Tells<F>>()
}

/// Tells the deque how many leaves and rights there are, and the root.
pub fn tell(owner: &mut Owner, leaves: u64, total: u64, root: &Task)
    requires { worker_view owner.old ≡ fresh untold }
    ensures same { SameWorker owner.old owner.new }
    ensures told { worker_view owner.new ≡ fresh (facts_of leaves total root.now []) }
{
    let _pass = tell_with::<Brand>(owner, leaves, total, root);
}

/// Gives the deque its first task.
pub fn give(owner: &mut Owner, task: Task) -> Result<(), Task>
    requires all { HasAll (worker_view owner.old) × ((worker_view owner.old).facts.given ≡ []) }
    requires good { IsTaskOf (worker_view owner.old).facts.leaves task }
    ensures same { SameWorker owner.old owner.new }
    ensures done { MatchResult result (λ _. worker_view owner.new ≡ with_given (worker_view owner.old) (task ∷ [])) (λ _. worker_view owner.new ≡ worker_view owner.old) }
{
    owner.push_as::<Giving>(task)
}

pub fn push(owner: &mut Owner, task: Task) -> Result<(), Task>
    requires { Works (worker_view owner.old) × IsTaskOf (worker_view owner.old).facts.leaves task }
    ensures same { SameWorker owner.old owner.new }
    ensures done { MatchResult result (λ _. worker_view owner.new ≡ with_pushed (worker_view owner.old) (task ∷ [])) (λ t. (t ≡ task) × (worker_view owner.new ≡ worker_view owner.old)) }
{
    owner.push_as::<Pushing>(task)
}

pub fn pop(owner: &mut Owner) -> Option<Task>
    requires { Works (worker_view owner.old) × (worker_flavor owner.old ≡ 1) }
    ensures same { SameWorker owner.old owner.new }
    ensures done { MatchOption result (worker_view owner.new ≡ worker_view owner.old) (λ t. (worker_view owner.new ≡ with_taken (worker_view owner.old) (t ∷ [])) × IsTaskOf (worker_view owner.old).facts.leaves t) }
    ensures all { MatchOption result (IsDone (worker_view owner.old)) (λ _. HasAll (worker_view owner.old) → length (taken_of (worker_view owner.new)) ≤ length (worker_view owner.old).facts.given + length (pushed_of (worker_view owner.new))) }
{
    owner.pop_as::<Draining>()
}

pub fn steal(thief: &Thief, pass: &mut TaskPass) -> Steal<Task>
    requires { IsPassOf (stealer_deque thief.now) pass.old × Works (view pass.old) }
    ensures same { SamePass pass.old pass.new }
    ensures pushed { (h : Task → ℕ) → sum_by h (pushed_of (view pass.new)) ≡ sum_by h (pushed_of (view pass.old)) }
    ensures done { MatchSteal result (view pass.new ≡ view pass.old) (view pass.new ≡ view pass.old) (λ t. (view pass.new ≡ with_taken (view pass.old) (t ∷ [])) × IsTaskOf (view pass.old).facts.leaves t) }
{
    thief.steal_as::<Taking>(pass)
}

/// A pass, cut off the owner's rights.
pub fn cut(owner: &mut Owner) -> TaskPass
    requires { Deals (worker_view owner.old) }
    ensures same { SameWorker owner.old owner.new × IsPassOf (worker_deque owner.old) result }
    ensures rights { (worker_view owner.new ≡ dealt_rest (worker_view owner.old)) × (view result ≡ dealt_one (worker_view owner.old)) }
{
    owner.another::<Cuts>()
}

/// A pass without a right.
pub fn bare(owner: &mut Owner) -> TaskPass
    ensures same { SameWorker owner.old owner.new × IsPassOf (worker_deque owner.old) result }
    ensures rights { (worker_view owner.new ≡ worker_view owner.old) × (view result ≡ dealt_none (worker_view owner.old)) }
{
    owner.another::<Bares>()
}

/// Takes a pass back.
pub fn take_back(owner: &mut Owner, pass: TaskPass)
    requires { IsPassOf (worker_deque owner.old) pass × Works (worker_view owner.old) }
    ensures same { SameWorker owner.old owner.new }
    ensures rights { worker_view owner.new ≡ both (worker_view owner.old) (view pass) }
{
    owner.absorb::<Adds>(pass);
}

/// What is left, once all passes are back. It joins what others have left.
pub fn drain(owner: &mut Owner, left: &mut Vec<Task>) -> Result<(), AllocError>
    requires { HasAll (worker_view owner.old) × (worker_flavor owner.old ≡ 1) }
    ensures same { IfOk result (λ _. AreSame (left.old.items ++ (worker_view owner.old).facts.given ++ pushed_of (worker_view owner.old)) (taken_of (worker_view owner.old) ++ left.new.items)) }
    ensures good { IfOk result (λ _. All (IsTaskOf (worker_view owner.old).facts.leaves) left.old.items → All (IsTaskOf (worker_view owner.old).facts.leaves) left.new.items) }
{
    left.reserve(1)?;
    while let Some(task) = pop(owner) {
        left.push_reserved(task);
        left.reserve(1)?;
    }
    Ok(())
}
