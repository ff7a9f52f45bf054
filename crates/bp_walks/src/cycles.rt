// A cycle among leaves each of which has another one placed before it.
ghost use Rattle.std.specs.Prelude.{◌≡◌, ◌≤◌, ◌<◌, ℕ, MatchOption, All, length, slice_index, drop, take, ◌++◌};
ghost use Rattle.bp_base.specs.Chain.{IsChainList};
ghost use Rattle.bp_metric.specs.Chains.{HasPairsOf, IsCycle, Places};
ghost use Rattle.bp_metric.specs.Coordinates.{IsLoop};
ghost use Rattle.bp_walks.specs.Lows.{places};

use crate::opens::open_before;
use bp_base::{Axis, Chain, Path};
use std::alloc::Global;

// Goes back from the start over open leaves until one comes again.
pub fn cycle_from(alloc: Global, path: &Path, axis: Axis, n: u64, open: &[u64], start: u64) -> Chain
    requires few { n < places }
    requires each { length open.now ≡ places }
    requires stuck { (i : ℕ) → 1 ≤ i → i ≤ n → 1 ≤ slice_index open.now i → (p : ℕ) × Places path.now axis p i × (1 ≤ slice_index open.now p) }
    requires pairs { HasPairsOf n path.now }
    requires leaf { (1 ≤ start) × (start ≤ n) }
    requires is_open { 1 ≤ slice_index open.now start }
    ensures { IsLoop n path.now axis result }
{
    let mut trail = [0; 33];
    let mut at = 32;
    trail[32] = start;
    loop {
        let before = match open_before(path, axis, open, trail[at]) {
            Some(p) => p,
            None => unreachable!(),
        };
        match place_of(&trail[at..], before) {
            Some(last) => return begun_at_least(alloc, &mut trail[at..at + last + 1]),
            None => {
                at -= 1;
                trail[at] = before;
            }
        }
    }
}

// Where the number stands in the list.
fn place_of(numbers: &[u64], wanted: u64) -> Option<usize>
    ensures { MatchOption result ((k : ℕ) → k < length numbers.now → slice_index numbers.now k ≡ wanted → ⊥) (λ k. (k < length numbers.now) × (slice_index numbers.now k ≡ wanted)) }
{
    for (k, number) in numbers.iter().enumerate() {
        if *number == wanted {
            return Some(k);
        }
    }
    None
}

/// The list of a cycle, begun at its least number.
pub fn begun_at_least(alloc: Global, cycle: &mut [u64]) -> Chain
    requires { IsChainList cycle.old }
    ensures { (k : ℕ) × (k < length cycle.old) × (result ≡ drop k cycle.old ++ take k cycle.old) × All (λ i. slice_index cycle.old k ≤ i) cycle.old }
{
    let first = place_of_least(cycle);
    cycle.rotate_left(first);
    match Chain::new(alloc, cycle) {
        Some(chain) => chain,
        None => unreachable!(),
    }
}

fn place_of_least(numbers: &[u64]) -> usize
    requires { 1 ≤ length numbers.now }
    ensures within { result < length numbers.now }
    ensures least { All (λ i. slice_index numbers.now result ≤ i) numbers.now }
{
    let mut least = 0;
    for (k, number) in numbers.iter().enumerate() {
        if *number < numbers[least] {
            least = k;
        }
    }
    least
}
