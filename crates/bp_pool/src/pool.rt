//! A pool is opened: its deques are told and dealt out to its hands.
ghost use Rattle.std.specs.Prelude.{◌≡◌, ℕ, ◌+◌, ◌<◌, ◌≤◌, List, [], IfOk, OnOk, length, All, slice_index_or};
ghost use Rattle.crossbeam_deque.specs.Handles.{view, IsPassOf, worker_deque, worker_view, worker_flavor, SameWorker};
ghost use Rattle.bp_base.specs.Limits.{most_hands};
ghost use Rattle.bp_pool.specs.Shares.{IsTaskOf, facts_of, fresh, untouched};
ghost use Rattle.bp_pool.specs.Kept.{Deque, each_of, given_to, deque_of, rights_of, total_of};
ghost use Rattle.bp_pool.specs.Rest.{PoolView};
ghost use Rattle.bp_pool.specs.Hands.{HandView};
ghost use Rattle.bp_pool.specs.Opens.{ids_of, facts_in, all_facts, IsLeft, IsTold, IsNewTheft, IsRow, IsLaid, new_hand, IsNewPool};

use crate::deque;
use crate::deque::{Owner, TaskPass, bare, cut, give, tell};
use crate::hand::{Hand, Theft};
use bp_base::{NoMemory, Task};
use std::alloc::Global;

// A pass with the rights of one hand.
fn share(owner: &mut Owner, hands: u64) -> TaskPass
    requires { each_of hands < length (worker_view owner.old).deeds }
    ensures same { SameWorker owner.old owner.new × IsPassOf (worker_deque owner.old) result }
    ensures facts { (facts_in owner.new ≡ facts_in owner.old) × ((view result).facts ≡ facts_in owner.old) }
    ensures rights { (n : ℕ) → (worker_view owner.old).deeds ≡ untouched (n + each_of hands) → 0 < n → ((worker_view owner.new).deeds ≡ untouched n) × ((view result).deeds ≡ untouched (each_of hands)) }
{
    if hands > 1 {
        return cut(owner);
    }
    bare(owner)
}

// A hand's pass on the deque at a place.
fn deal(
    owner: &mut Owner,
    place: usize,
    hands: u64,
    _leaves: u64,
    _left: u64,
) -> Result<Theft, NoMemory>
    requires { IsLeft _leaves (_left + each_of hands) owner.old × (0 < _left) }
    ensures same { IfOk result (λ _. SameWorker owner.old owner.new × (facts_in owner.new ≡ facts_in owner.old) × IsLeft _leaves _left owner.new) }
    ensures theft { IfOk result (λ t. (t.place ≡ place) × (deque_of t ≡ worker_deque owner.old) × IsNewTheft (each_of hands) _leaves t) }
{
    let thief = owner.stealer()?;
    let pass = share(owner, hands);
    Ok(Theft { place, thief, pass })
}

// A hand's passes on all deques.
fn row(
    alloc: Global,
    owners: &mut Vec<Owner>,
    hands: u64,
    leaves: u64,
    left: u64,
) -> Result<Vec<Theft>, NoMemory>
    requires count { length owners.old.items ≡ hands }
    requires left { (0 < left) × All (IsLeft leaves (left + each_of hands)) owners.old.items }
    ensures owners { IfOk result (λ _. All (IsLeft leaves left) owners.new.items × (all_facts owners.new.items ≡ all_facts owners.old.items) × (ids_of owners.new.items ≡ ids_of owners.old.items)) }
    ensures row { IfOk result (λ r. IsRow leaves hands (ids_of owners.old.items) r.items) }
{
    let mut thefts = Vec::with_capacity(alloc, hands as usize)?;
    for place in 0..hands as usize {
        let theft = deal(&mut owners[place], place, hands, leaves, left)?;
        thefts.push_reserved(theft);
    }
    Ok(thefts)
}

// The deques of a pool, each told of it.
fn tell_all(alloc: Global, hands: u64, leaves: u64, root: &Task) -> Result<Vec<Owner>, NoMemory>
    requires { (0 < hands) × (hands ≤ most_hands) }
    ensures { IfOk result (λ v. (length v.items ≡ hands) × All (IsTold (facts_of leaves (total_of hands) root.now [])) v.items) }
{
    let mut owners = Vec::with_capacity(alloc, hands as usize)?;
    let total = rights(hands, hands);
    for _ in 0..hands {
        let mut owner = deque::open(alloc)?;
        tell(&mut owner, leaves, total, root);
        owners.push_reserved(owner);
    }
    Ok(owners)
}

// How many rights a deque's owner has, with those of so many hands to come.
fn rights(hands: u64, others: u64) -> u64
    requires { others ≤ most_hands }
    ensures { result ≡ rights_of hands others }
{
    if hands == 1 { 1 } else { 1 + others }
}

// The deques of a pool. The first has the root.
fn lay(alloc: Global, hands: u64, leaves: u64, root: Task) -> Result<Vec<Owner>, NoMemory>
    requires hands { (0 < hands) × (hands ≤ most_hands) }
    requires root { IsTaskOf leaves root }
    ensures count { IfOk result (λ v. length v.items ≡ hands) }
    ensures left { IfOk result (λ v. All (IsLeft leaves (total_of hands)) v.items) }
    ensures told { IfOk result (λ v. (k : ℕ) (d : Deque) → k < hands → facts_in (slice_index_or v.items k d) ≡ facts_of leaves (total_of hands) root (given_to (k + 1) root)) }
{
    let mut owners = tell_all(alloc, hands, leaves, &root)?;
    match give(&mut owners[0], root) {
        Ok(()) => Ok(owners),
        Err(_) => Err(NoMemory),
    }
}

// All hands' passes.
fn rows(
    alloc: Global,
    owners: &mut Vec<Owner>,
    hands: u64,
    leaves: u64,
) -> Result<Vec<Vec<Theft>>, NoMemory>
    requires count { (length owners.old.items ≡ hands) × (hands ≤ most_hands) }
    requires left { All (IsLeft leaves (total_of hands)) owners.old.items }
    ensures owners { IfOk result (λ _. All (IsLeft leaves 1) owners.new.items × (all_facts owners.new.items ≡ all_facts owners.old.items) × (ids_of owners.new.items ≡ ids_of owners.old.items)) }
    ensures rows { IfOk result (λ r. (length r.items ≡ hands) × All (λ v. IsRow leaves hands (ids_of owners.old.items) v.items) r.items) }
{
    let mut rows = Vec::with_capacity(alloc, hands as usize)?;
    for k in 0..hands {
        let left = rights(hands, hands - k - 1);
        let row = row(alloc, owners, hands, leaves, left)?;
        rows.push_reserved(row);
    }
    Ok(rows)
}

// The hands of the deques, each with a row of passes.
fn seat(
    alloc: Global,
    mut owners: Vec<Owner>,
    mut rows: Vec<Vec<Theft>>,
    hands: u64,
    leaves: u64,
) -> Result<Vec<Hand>, NoMemory>
    requires pool { (pool : PoolView) × IsLaid pool hands owners.items × (pool.leaves ≡ leaves) × (hands ≤ most_hands) }
    requires owners { All (IsLeft leaves 1) owners.items }
    requires rows { (length rows.items ≡ hands) × All (λ v. IsRow leaves hands (ids_of owners.items) v.items) rows.items }
    ensures count { IfOk result (λ v. length v.items ≡ hands) }
    ensures hands { IfOk result (λ v. (pool : PoolView) → IsLaid pool hands owners.items → (k : ℕ) (d : HandView) → k < hands → slice_index_or v.items k d ≡ new_hand pool (k + 1)) }
{
    let mut all = Vec::new(alloc);
    while let Some(own) = owners.pop() {
        let Some(thefts) = rows.pop() else {
            unreachable!()
        };
        let number = owners.len() as u64 + 1;
        let hand = Hand::new(alloc, number, hands, leaves, own, thefts)?;
        all.insert(0, hand)?;
    }
    Ok(all)
}

/// A new pool: its hands in the order of their numbers, from 1 on, for tasks whose paths are of so many leaves. The root stands in the first hand's deque.
pub fn open(alloc: Global, hands: u64, leaves: u64, root: Task) -> Result<Vec<Hand>, NoMemory>
    requires hands { (0 < hands) × (hands ≤ most_hands) }
    requires root { IsTaskOf leaves root }
    ensures { IfOk result (λ v. IsNewPool hands leaves root v.items) }
{
    let mut owners = lay(alloc, hands, leaves, root)?;
    let rows = rows(alloc, &mut owners, hands, leaves)?;
    let all = seat(alloc, owners, rows, hands, leaves)?;
    Ok(all)
}

fn moves<T: Send>(_: &T) {}

// A hand may go to another thread.
fn crosses(hand: &Hand) {
    moves(hand);
}
