// Corners, and whether a swap is admissible.
ghost use Rattle.std.specs.Prelude.{◌≡◌, ◌≢◌, ◌↔◌, ◌≤◌, ℕ, All, IsTrue, MatchOption};
ghost use Rattle.bp_base.specs.Tree.{IsLeaf};
ghost use Rattle.bp_arrangement.specs.Swaps.{IsAdmissible, IsCorner, IsFirstBadSwap, IsSwap, leaves_of};
ghost use Rattle.bp_arrangement.specs.Tests.{AllDiffer, AreLeavesOf, IsApart, IsWithout, KeepsFrom};

use crate::sending::sent;
use bp_base::{Pair, Sequence};
use bp_metric::Metric;

/// Whether a and b, which may be any numbers, are two different leaves.
pub fn is_corner(metric: &Metric, a: u64, b: u64) -> bool
    ensures corner { IsTrue result ↔ IsCorner metric.now.tree a b }
{
    is_leaf(metric.leaves(), a) && is_leaf(metric.leaves(), b) && a != b
}

/// Whether a swap exchanges 1 to 16 pairs of leaves that are all different and none of them a or b, and keeps all distances. It
/// may name any numbers.
pub fn is_admissible(metric: &Metric, a: u64, b: u64, swap: &[Pair]) -> bool
    ensures admissible { IsTrue result ↔ IsAdmissible metric.now.tree a b swap.now }
{
    are_apart(a, b, swap) && is_swap(metric, swap)
}

/// The number of the first swap, counted from 1, that isn't admissible.
pub fn first_inadmissible(metric: &Metric, a: u64, b: u64, swaps: &[Sequence<Pair>]) -> Option<u64>
    ensures first { MatchOption result (All (IsAdmissible metric.now.tree a b) swaps.now) (λ n. IsFirstBadSwap metric.now.tree a b swaps.now n) }
{
    for at in 0..swaps.len() {
        if !is_admissible(metric, a, b, swaps[at].as_slice()) {
            return Some(at as u64 + 1);
        }
    }
    None
}

fn is_leaf(count: u64, leaf: u64) -> bool
    ensures { IsTrue result ↔ ((1 ≤ leaf) × (leaf ≤ count)) }
{
    leaf >= 1 && leaf <= count
}

// Whether no pair names a or b.
fn are_apart(a: u64, b: u64, swap: &[Pair]) -> bool
    ensures { IsTrue result ↔ All (IsApart a b) swap.now }
{
    swap.iter().all(|pair| pair.i != a && pair.i != b && pair.j != a && pair.j != b)
}

// Whether the pairs exchange leaves of the tree that are all different, and keep all distances.
fn is_swap(metric: &Metric, swap: &[Pair]) -> bool
    ensures { IsTrue result ↔ IsSwap metric.now.tree swap.now }
{
    if swap.is_empty() || swap.len() > 16 {
        return false;
    }
    if !are_leaves(metric.leaves(), swap) {
        return false;
    }
    if !are_different(swap) {
        return false;
    }
    keeps_distances(metric, swap)
}

// Whether all pairs name only leaves, of which there are so many.
fn are_leaves(count: u64, swap: &[Pair]) -> bool
    ensures { IsTrue result ↔ All (AreLeavesOf count) swap.now }
{
    swap.iter()
        .all(|pair| is_leaf(count, pair.i) && is_leaf(count, pair.j))
}

// Whether all leaves of the pairs are different.
fn are_different(swap: &[Pair]) -> bool
    ensures { IsTrue result ↔ AllDiffer swap.now }
{
    for at in 0..swap.len() {
        if !is_first(swap[at], &swap[at + 1..]) {
            return false;
        }
    }
    true
}

// Whether the pair's leaves differ, and no later pair names them.
fn is_first(pair: Pair, later: &[Pair]) -> bool
    ensures { IsTrue result ↔ ((pair.i ≢ pair.j) × All (IsWithout pair.i) later.now × All (IsWithout pair.j) later.now) }
{
    pair.i != pair.j && is_without(later, pair.i) && is_without(later, pair.j)
}

fn is_without(pairs: &[Pair], leaf: u64) -> bool
    ensures { IsTrue result ↔ All (IsWithout leaf) pairs.now }
{
    pairs.iter().all(|pair| pair.i != leaf && pair.j != leaf)
}

// Whether the swap keeps all distances.
fn keeps_distances(metric: &Metric, swap: &[Pair]) -> bool
    requires { All (IsLeaf metric.now.tree) (leaves_of swap.now) }
    ensures { IsTrue result ↔ ((i : ℕ) → IsLeaf metric.now.tree i → KeepsFrom metric.now.tree swap.now i) }
{
    for leaf in 1..metric.leaves() + 1 {
        if !keeps_from(metric, swap, leaf) {
            return false;
        }
    }
    true
}

// Whether the swap keeps the distances from a leaf.
fn keeps_from(metric: &Metric, swap: &[Pair], from: u64) -> bool
    requires leaves { All (IsLeaf metric.now.tree) (leaves_of swap.now) }
    requires from { IsLeaf metric.now.tree from }
    ensures { IsTrue result ↔ KeepsFrom metric.now.tree swap.now from }
{
    let goal = sent(swap, from);
    for leaf in 1..metric.leaves() + 1 {
        if metric.dist(goal, sent(swap, leaf)) != metric.dist(from, leaf) {
            return false;
        }
    }
    true
}
