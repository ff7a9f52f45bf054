// What is shown for rows of coordinates.
ghost use Rattle.std.specs.Prelude.{◌≡◌, ◌+◌, ◌≤◌, ◌<◌, ◌↔◌, ◌⊎◌, ℕ, IsTrue, MatchOption, length, slice_index};
ghost use Rattle.bp_base.specs.Tree.{leaf_count, IsLeaf};
ghost use Rattle.bp_metric.specs.Chains.{HasPairsOf, Places};
ghost use Rattle.bp_metric.specs.Coordinates.{IsLeast};
ghost use Rattle.bp_metric.specs.Distance.{leaf_dist, most_side};
ghost use Rattle.bp_walks.specs.Lows.{ShowsLeaf};
ghost use Rattle.bp_warm.specs.Links.{AreLinks, reversed};
ghost use Rattle.bp_warm.specs.Raising.{IsExact, IsRowBefore, low_in};

use crate::links::Links;
use bp_base::{Axis, Chain, Claim, Least, Step};
use bp_metric::Metric;
use bp_walks::judge_greatest;
use std::alloc::Global;

// The least-numbered leaf with the greatest coordinate.
pub fn greatest_leaf(row: &[u64]) -> u64
    requires { 1 ≤ length row.now }
    ensures leaf { (1 ≤ result) × (result ≤ length row.now) }
    ensures greatest { (k : ℕ) → k < length row.now → slice_index row.now k ≤ low_in row.now result }
    ensures first { (k : ℕ) → k + 1 < result → slice_index row.now k < low_in row.now result }
{
    let mut best = 0;
    for k in 0..row.len() {
        if row[best] < row[k] {
            best = k;
        }
    }
    best as u64 + 1
}

// The chain that is shown for the leaf's coordinate: back from it, each time over the least leaf that makes it up.
pub fn shown_chain(
    alloc: Global,
    metric: &Metric,
    _steps: &[Step],
    _axis: Axis,
    before: &Links,
    row: &[u64],
    last: u64,
) -> Chain
    requires pairs { HasPairsOf (leaf_count metric.now.tree) _steps.now }
    requires exact { IsExact metric.now.tree _steps.now _axis row.now }
    requires links { AreLinks (reversed _axis) _steps.now before.now }
    requires leaf { IsLeaf metric.now.tree last }
    ensures { ShowsLeaf metric.now.tree _steps.now _axis last result }
{
    let _leaves = metric.leaves();
    let mut trail = [0; 33];
    let mut at = 32;
    trail[32] = last;
    while let Some(shown) = shown_before(
        metric,
        _steps,
        _axis,
        before.row(trail[at]),
        row,
        trail[at],
    ) {
        at -= 1;
        trail[at] = shown;
    }
    match Chain::new(alloc, &trail[at..]) {
        Some(chain) => chain,
        None => unreachable!(),
    }
}

// The least leaf that makes up this one's coordinate.
fn shown_before(
    metric: &Metric,
    _steps: &[Step],
    _axis: Axis,
    befores: &[u64],
    row: &[u64],
    leaf: u64,
) -> Option<u64>
    requires pairs { HasPairsOf (leaf_count metric.now.tree) _steps.now }
    requires exact { IsExact metric.now.tree _steps.now _axis row.now }
    requires befores { IsRowBefore _steps.now _axis leaf befores.now }
    requires leaf { IsLeaf metric.now.tree leaf }
    ensures none { MatchOption result ((a : ℕ) → Places _steps.now _axis a leaf → low_in row.now a + leaf_dist metric.now.tree a leaf ≡ low_in row.now leaf → ⊥) (λ p. 1 ≤ 1) }
    ensures some { MatchOption result (1 ≤ 1) (λ p. Places _steps.now _axis p leaf × (low_in row.now p + leaf_dist metric.now.tree p leaf ≡ low_in row.now leaf)) }
    ensures least { MatchOption result (1 ≤ 1) (λ p. (c : ℕ) → c < p → Places _steps.now _axis c leaf → low_in row.now c + leaf_dist metric.now.tree c leaf ≡ low_in row.now leaf → ⊥) }
{
    let mut best = None;
    for k in 0..befores.len() {
        best = better(metric, row, leaf, best, befores[k]);
    }
    best
}

// The lesser of the best leaf so far and this one, where this one makes up the leaf's coordinate.
fn better(metric: &Metric, row: &[u64], leaf: u64, best: Option<u64>, before: u64) -> Option<u64>
    requires before { IsLeaf metric.now.tree before }
    requires leaf { IsLeaf metric.now.tree leaf }
    requires each { length row.now ≡ leaf_count metric.now.tree }
    requires small { low_in row.now before ≤ most_side }
    ensures none { MatchOption result ((best ≡ None) × (low_in row.now before + leaf_dist metric.now.tree before leaf ≡ low_in row.now leaf → ⊥)) (λ p. 1 ≤ 1) }
    ensures some { MatchOption result (1 ≤ 1) (λ p. (best ≡ Some p) ⊎ ((p ≡ before) × (low_in row.now before + leaf_dist metric.now.tree before leaf ≡ low_in row.now leaf))) }
    ensures before { MatchOption result (1 ≤ 1) (λ p. low_in row.now before + leaf_dist metric.now.tree before leaf ≡ low_in row.now leaf → p ≤ before) }
    ensures best { MatchOption best (1 ≤ 1) (λ q. MatchOption result ⊥ (λ p. p ≤ q)) }
{
    if row[before as usize - 1] + metric.dist(before, leaf) != row[leaf as usize - 1] {
        return best;
    }
    match best {
        Some(shown) if shown <= before => Some(shown),
        _ => Some(before),
    }
}
