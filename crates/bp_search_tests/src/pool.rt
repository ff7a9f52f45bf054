ghost use Rattle.std.specs.Prelude.{◌≡◌, ◌<◌, ◌≤◌, [], All, IfOk, length};
ghost use Rattle.bp_base.specs.declared.record.Task.{Task as AnyTask};
ghost use Rattle.bp_pool.specs.Hands.{IsSameHand};
ghost use Rattle.bp_pool.specs.Opens.{IsNewPool};
ghost use Rattle.bp_pool.specs.Rows.{AreKept};
ghost use Rattle.bp_pool.specs.Shares.{IsTaskOf};

use bp_base::{Path, Task};
use bp_pool::*;
use std::alloc::Global;
use std::sync::atomic::{AtomicU64, Ordering};
use std::test::Fail;
use std::thread;
use std::thread::Threads;

// The tasks of the tests differ in their bounds alone.
fn task(alloc: Global, _leaves: u64, bound: u64) -> Task
    ensures { IsTaskOf _leaves result × (result.bound ≡ bound) }
{
    Task {
        path: Path::empty(alloc),
        bound,
    }
}

// The bound of the task that a take gave; 0 is Empty, and 1 is Contended.
fn bound_of(taken: Take) -> u64 {
    match taken {
        Take::Task(task) => task.bound,
        Take::Empty => 0,
        Take::Contended => 1,
    }
}

// Adds a task. Answers false where there was no room.
fn add(alloc: Global, hand: &mut Hand, leaves: u64, bound: u64) -> bool
    requires { hand.old.pool.leaves ≡ leaves }
    ensures { IsSameHand hand.old hand.new }
{
    hand.push(task(alloc, leaves, bound)).is_ok()
}

fn next(hand: &mut Hand) -> u64
    ensures { IsSameHand hand.old hand.new }
{
    bound_of(hand.take())
}

// One thread: the first hand takes the root, and pushes and takes; the second steals.
fn turns(alloc: Global, a: &mut Hand, b: &mut Hand, leaves: u64) -> [u64; 6]
    requires { a.old.pool.leaves ≡ leaves }
    ensures { IsSameHand a.old a.new × IsSameHand b.old b.new }
{
    let root = next(a);
    let room = add(alloc, a, leaves, 11);
    let more = add(alloc, a, leaves, 12);
    let newest = next(a);
    let oldest = next(b);
    [root, room as u64, more as u64, newest, oldest, next(b)]
}

// The same, and then both come back, the second one first: how many tasks they pushed and took, and how many are left.
fn run_two(alloc: Global, mut hands: Vec<Hand>) -> Result<([u64; 6], [u64; 3]), Fail>
    requires { (root : AnyTask) × IsNewPool 2 4 root hands.items }
{
    let Some(mut b) = hands.pop() else {
        return Err(Fail::from("no hand"));
    };
    let Some(mut a) = hands.pop() else {
        return Err(Fail::from("one hand"));
    };
    let bounds = turns(alloc, &mut a, &mut b, 4);
    let back = Vec::from_array(alloc, [b, a])?;
    let gathered = gather(alloc, back)?;
    let counts = [gathered.pushed, gathered.taken, gathered.left.len() as u64];
    Ok((bounds, counts))
}

#[test]
fn two_hands(rt: HostRuntime) -> Result<(), Fail> {
    let hands = open(rt.alloc(), 2, 4, task(rt.alloc(), 4, 10))?;
    let (bounds, counts) = run_two(rt.alloc(), hands)?;
    assert!(rt; bounds == [10, 1, 1, 12, 11, 0]);
    assert!(rt; counts == [3, 3, 0]);
    Ok(())
}

#[test]
fn all_come_back(rt: HostRuntime) -> Result<(), Fail> {
    let hands = open(rt.alloc(), 3, 4, task(rt.alloc(), 4, 10))?;
    let gathered = gather(rt.alloc(), hands)?;
    assert!(rt; gathered.pushed == 1 && gathered.taken == 0 && gathered.left.len() == 1);
    Ok(())
}

// The first hand's own deque has the root, and the second's has nothing.
#[test]
fn root_in_first(rt: HostRuntime) -> Result<(), Fail> {
    let mut hands = open(rt.alloc(), 2, 4, task(rt.alloc(), 4, 10))?;
    let second = hands.pop().and_then(|mut hand| hand.pop());
    let first = hands.pop().and_then(|mut hand| hand.pop());
    assert!(rt; second.is_none() && first.is_some());
    Ok(())
}

#[test]
fn one_hand(rt: HostRuntime) -> Result<(), Fail> {
    let mut hands = open(rt.alloc(), 1, 4, task(rt.alloc(), 4, 10))?;
    let Some(mut a) = hands.pop() else {
        unreachable!()
    };
    assert_eq!(rt; bound_of(a.take()), 10);
    assert_eq!(rt; bound_of(a.take()), 0);
    Ok(())
}

fn tasks<const N: usize>(alloc: Global, bounds: [u64; N]) -> Result<Vec<Task>, Fail> {
    let mut all = Vec::new(alloc);
    for bound in bounds {
        all.push(task(alloc, 4, bound))?;
    }
    Ok(all)
}

// The second of three hands, with the deques given.
fn second_of_three(alloc: Global, deques: [Vec<Task>; 3]) -> Result<MemTries, Fail> {
    let deques = Vec::from_array(alloc, deques)?;
    let misses = Vec::from_array(alloc, [0, 0, 0])?;
    Ok(MemTries {
        number: 2,
        deques,
        misses,
    })
}

#[test]
fn take_from_memory(rt: HostRuntime) -> Result<(), Fail> {
    let first = tasks(rt.alloc(), [11, 12])?;
    let second = tasks(rt.alloc(), [21, 22])?;
    let third = tasks(rt.alloc(), [31])?;
    let mut tries = second_of_three(rt.alloc(), [first, second, third])?;
    for bound in [22, 21, 31, 11, 12, 0] {
        assert_eq!(rt; bound_of(take_from(&mut tries)), bound);
    }
    let MemTries { misses, .. } = tries;
    assert!(rt; misses.as_slice() == [1, 4, 3].as_slice());
    Ok(())
}

// How many tasks each of four hands pushes. Their bounds are 1 to four times as many; the root's is 0.
const EACH: u64 = 1_000;

const ALL: usize = 4_001;

// Counts a task by its bound.
fn count(task: &Task, counts: &[AtomicU64])
    requires { length counts.now ≡ 4001 }
{
    counts[(task.bound % ALL as u64) as usize].fetch_add(1, Ordering::SeqCst);
}

// Takes so many times.
fn take_many(hand: &mut Hand, times: u64, counts: &[AtomicU64])
    requires { length counts.now ≡ 4001 }
    ensures { IsSameHand hand.old hand.new }
{
    for _ in 0..times {
        if let Take::Task(task) = hand.take() {
            count(&task, counts);
        }
    }
}

// Pushes its tasks and takes as often, now its own and now those of others.
fn hold_turn(alloc: Global, hand: &mut Hand, place: usize, counts: &[AtomicU64])
    requires { (hand.old.pool.leaves ≡ 4) × (place < 4) × (length counts.now ≡ 4001) }
    ensures { IsSameHand hand.old hand.new }
{
    for k in 0..EACH {
        add(alloc, hand, 4, EACH * place as u64 + k + 1);
        take_many(hand, k % 3, counts);
    }
}

// Four hands, each in a thread of its own.
fn four_turns<R: Threads + Sync>(rt: &R, alloc: Global, hands: &mut [Hand], counts: &[AtomicU64])
    requires { All (λ h. h.pool.leaves ≡ 4) hands.old × (length hands.old ≡ 4) × (length counts.now ≡ 4001) }
    ensures { AreKept hands.old hands.new }
{
    thread::for_each_mut(rt, hands, 4, &|k, hand| hold_turn(alloc, hand, k, counts));
}

fn counters(alloc: Global) -> Result<Vec<AtomicU64>, Fail>
    ensures { IfOk result (λ v. length v.items ≡ 4001) }
{
    let mut counts = Vec::new(alloc);
    for _ in 0..ALL {
        counts.push(AtomicU64::new(0))?;
    }
    Ok(counts)
}

fn count_all(tasks: &[Task], counts: &[AtomicU64])
    requires { length counts.now ≡ 4001 }
{
    for task in tasks {
        count(task, counts);
    }
}

fn is_each_once(counts: &[AtomicU64]) -> bool {
    for count in counts {
        if count.load(Ordering::SeqCst) != 1 {
            return false;
        }
    }
    true
}

// Of some thousand tasks, each pushed once, each is taken once or left once.
#[test]
fn four_threads(rt: HostRuntime) -> Result<(), Fail> {
    let mut hands = open(rt.alloc(), 4, 4, task(rt.alloc(), 4, 0))?;
    let counts = counters(rt.alloc())?;
    four_turns(&rt, rt.alloc(), hands.as_mut_slice(), counts.as_slice());
    let gathered = gather(rt.alloc(), hands)?;
    count_all(gathered.left.as_slice(), counts.as_slice());
    assert!(rt; is_each_once(counts.as_slice()));
    assert_eq!(rt; gathered.pushed, ALL as u64);
    Ok(())
}
