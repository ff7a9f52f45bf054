//! All hands come back: what is left.
ghost use Rattle.std.specs.Prelude.{◌≡◌, ℕ, ◌+◌, ◌<◌, ◌≤◌, min, List, [], ◌∷◌, ◌++◌, length, All, slice_index, IfOk};
ghost use Rattle.std.specs.List.{sum_by, flat_map};
ghost use Rattle.std.specs.List.Sorted.{IsPermutation};
ghost use Rattle.crossbeam_deque.specs.Handles.{worker_view};
ghost use Rattle.bp_base.specs.Bags.{AreSame};
ghost use Rattle.bp_base.specs.declared.record.Task.{Task};
ghost use Rattle.bp_pool.specs.Shares.{IsTaskOf};
ghost use Rattle.bp_pool.specs.Rest.{PoolView};
ghost use Rattle.bp_pool.specs.Hands.{top};
ghost use Rattle.bp_pool.specs.Kept.{Deque};
ghost use Rattle.bp_pool.specs.Opens.{ids_of, all_facts};
ghost use Rattle.bp_pool.specs.Rows.{counts_of, all_given, all_pushed, all_taken, AreOwners, IsFull, IsOf, rights_at, pushed_in, taken_in, IsInOrder, IsWhole, IsParted, count_pushed, count_taken, pushed_by_all, taken_by_all};

use crate::deque::{Owner, drain, take_back};
use crate::hand::{Hand, Theft};
use bp_base::{NoMemory, Task};
use std::alloc::Global;

/// How many tasks all hands pushed, the root among them, how many they took, each 2^64 - 1 where it would be greater, and the tasks that are left.
#[derive(Drop)]
pub struct Gathered {
    pub pushed: u64,
    pub taken: u64,
    pub left: Vec<Task>,
}

// Puts all hands in the order of their numbers.
fn arrange(hands: &mut Vec<Hand>)
    ensures same { IsPermutation hands.old.items hands.new.items }
    ensures order { (pool : PoolView) → IsWhole pool hands.old.items → IsInOrder pool hands.new.items }
{
    hands.sort_unstable_by_key(|hand| hand.own_number());
}

// The owners and the passes of all hands, which stand in the order of their numbers.
fn part(alloc: Global, mut hands: Vec<Hand>) -> Result<(Vec<Owner>, Vec<Theft>), NoMemory>
    requires { (pool : PoolView) × IsInOrder pool hands.items }
    ensures { IfOk result (λ r. (pool : PoolView) → IsInOrder pool hands.items → IsParted pool [] hands.items r.0.items r.1.items) }
{
    let mut owners = Vec::new(alloc);
    let mut thefts = Vec::new(alloc);
    while let Some(hand) = hands.pop() {
        let (own, mut row) = hand.into_parts();
        owners.insert(0, own)?;
        thefts.append(&mut row)?;
    }
    Ok((owners, thefts))
}

// Each deque takes its passes back.
fn absorb(owners: &mut Vec<Owner>, mut thefts: Vec<Theft>)
    requires { AreOwners owners.old.items × All (IsOf (ids_of owners.old.items)) thefts.items }
    ensures owners { AreOwners owners.new.items × (ids_of owners.new.items ≡ ids_of owners.old.items) × (all_facts owners.new.items ≡ all_facts owners.old.items) }
    ensures rights { (j : ℕ) → slice_index (counts_of owners.new.items) j ≡ slice_index (counts_of owners.old.items) j + sum_by (rights_at j) thefts.items }
    ensures pushed { (h : Task → ℕ) → all_pushed h owners.new.items ≡ all_pushed h owners.old.items + sum_by (pushed_in h) thefts.items }
    ensures taken { (h : Task → ℕ) → all_taken h owners.new.items ≡ all_taken h owners.old.items + sum_by (taken_in h) thefts.items }
{
    while let Some(theft) = thefts.pop() {
        let Theft { place, pass, .. } = theft;
        take_back(&mut owners[place], pass);
    }
}

// What is left in all deques, once all passes are back.
fn drain_all(alloc: Global, mut owners: Vec<Owner>) -> Result<Vec<Task>, NoMemory>
    requires { All IsFull owners.items }
    ensures same { IfOk result (λ left. (h : Task → ℕ) → all_given h owners.items + all_pushed h owners.items ≡ all_taken h owners.items + sum_by h left.items) }
    ensures good { IfOk result (λ left. (leaves : ℕ) → All (λ (w : Deque). (worker_view w).facts.leaves ≡ leaves) owners.items → All (IsTaskOf leaves) left.items) }
{
    let mut left = Vec::new(alloc);
    while let Some(mut owner) = owners.pop() {
        drain(&mut owner, &mut left)?;
    }
    Ok(left)
}

// How many tasks all hands pushed, and how many they took.
fn count_all(hands: &[Hand]) -> (u64, u64)
    ensures pushed { result.0 ≡ min (count_pushed hands.now) top }
    ensures taken { result.1 ≡ min (count_taken hands.now) top }
{
    let mut pushed: u64 = 0;
    let mut taken: u64 = 0;
    for k in 0..hands.len() {
        let (pushes, takes) = hands[k].counts();
        pushed = pushed.saturating_add(pushes);
        taken = taken.saturating_add(takes);
    }
    (pushed, taken)
}

/// All hands of a pool come back, in whatever order. What they took and what is left are together the root and what they pushed, each as often.
pub fn gather(alloc: Global, mut hands: Vec<Hand>) -> Result<Gathered, NoMemory>
    requires { (pool : PoolView) × IsWhole pool hands.items }
    ensures same { IfOk result (λ g. (pool : PoolView) → IsWhole pool hands.items → AreSame (pool.root ∷ pushed_by_all hands.items) (taken_by_all hands.items ++ g.left.items)) }
    ensures good { IfOk result (λ g. (pool : PoolView) → IsWhole pool hands.items → All (IsTaskOf pool.leaves) g.left.items) }
    ensures pushed { IfOk result (λ g. g.pushed ≡ min (length (pushed_by_all hands.items) + 1) top) }
    ensures taken { IfOk result (λ g. g.taken ≡ min (length (taken_by_all hands.items)) top) }
{
    let (pushed, taken) = count_all(hands.as_slice());
    arrange(&mut hands);
    let (mut owners, thefts) = part(alloc, hands)?;
    absorb(&mut owners, thefts);
    let left = drain_all(alloc, owners)?;
    Ok(Gathered {
        pushed: pushed.saturating_add(1),
        taken,
        left,
    })
}
