// Leaves that are still open: those marked by a number other than 0.
ghost use Rattle.std.specs.Prelude.{◌≡◌, ◌≤◌, ◌<◌, ℕ, MatchOption, length, slice_index};
ghost use Rattle.bp_base.specs.Path.{IsSmallPair};
ghost use Rattle.bp_metric.specs.Chains.{Places, PlacesBy};
ghost use Rattle.bp_walks.specs.Lows.{places};

use crate::orders::before;
use bp_base::{Axis, Path, Step};

// The least leaf that is open and has no open leaf placed before it. Where there is none, each open leaf has one.
pub fn ready(path: &Path, axis: Axis, n: u64, open: &[u64]) -> Option<u64>
    requires few { n < places }
    requires each { length open.now ≡ places }
    ensures within { MatchOption result (1 ≤ 1) (λ i. (1 ≤ i) × (i ≤ n) × (1 ≤ slice_index open.now i)) }
    ensures ready { MatchOption result (1 ≤ 1) (λ i. (p : ℕ) → Places path.now axis p i → slice_index open.now p ≡ 0) }
    ensures stuck { MatchOption result ((i : ℕ) → 1 ≤ i → i ≤ n → 1 ≤ slice_index open.now i → (p : ℕ) × Places path.now axis p i × (1 ≤ slice_index open.now p)) (λ i. 1 ≤ 1) }
{
    for leaf in 1..n + 1 {
        if open[leaf as usize] != 0 {
            match open_before(path, axis, open, leaf) {
                None => return Some(leaf),
                Some(_) => {}
            }
        }
    }
    None
}

// The least leaf that is open.
pub fn first_open(n: u64, open: &[u64]) -> Option<u64>
    requires few { n < places }
    requires each { length open.now ≡ places }
    ensures { MatchOption result ((i : ℕ) → 1 ≤ i → i ≤ n → slice_index open.now i ≡ 0) (λ i. (1 ≤ i) × (i ≤ n) × (1 ≤ slice_index open.now i)) }
{
    for leaf in 1..n + 1 {
        if open[leaf as usize] != 0 {
            return Some(leaf);
        }
    }
    None
}

// An open leaf that the path places before this one.
pub fn open_before(path: &Path, axis: Axis, open: &[u64], leaf: u64) -> Option<u64>
    requires { length open.now ≡ places }
    ensures { MatchOption result ((p : ℕ) → Places path.now axis p leaf → slice_index open.now p ≡ 0) (λ p. Places path.now axis p leaf × (1 ≤ slice_index open.now p)) }
{
    for k in 0..path.len() {
        match open_by(axis, path.at(k), open, leaf) {
            Some(p) => return Some(p),
            None => {}
        }
    }
    None
}

fn open_by(axis: Axis, step: Step, open: &[u64], leaf: u64) -> Option<u64>
    requires pair { IsSmallPair step.pair }
    requires each { length open.now ≡ places }
    ensures { MatchOption result ((p : ℕ) → PlacesBy axis p leaf step.pair step.choice → slice_index open.now p ≡ 0) (λ p. PlacesBy axis p leaf step.pair step.choice × (1 ≤ slice_index open.now p)) }
{
    match before(axis, step, leaf) {
        Some(p) if open[p as usize] != 0 => Some(p),
        _ => None,
    }
}
