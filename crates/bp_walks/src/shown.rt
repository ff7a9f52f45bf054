// The chain that shows a coordinate.
ghost use Rattle.std.specs.Prelude.{◌≡◌, ◌+◌, ◌≤◌, ◌<◌, ◌↔◌, ℕ, IsTrue, MatchOption, length, slice_index};
ghost use Rattle.bp_base.specs.Tree.{leaf_count, IsLeaf};
ghost use Rattle.bp_metric.specs.Chains.{HasPairsOf, Places};
ghost use Rattle.bp_metric.specs.Distance.{leaf_dist};
ghost use Rattle.bp_walks.specs.Lows.{IsLowTable, ShowsLeaf, places};

use crate::orders::places;
use bp_base::{Axis, Chain, Path};
use bp_metric::Metric;
use std::alloc::Global;

// The least-numbered leaf with the greatest coordinate.
pub fn greatest_leaf(n: u64, lows: &[u64]) -> u64
    requires some { 1 ≤ n }
    requires few { n < places }
    requires each { length lows.now ≡ places }
    ensures leaf { (1 ≤ result) × (result ≤ n) }
    ensures greatest { (i : ℕ) → 1 ≤ i → i ≤ n → slice_index lows.now i ≤ slice_index lows.now result }
    ensures first { (i : ℕ) → 1 ≤ i → i < result → slice_index lows.now i < slice_index lows.now result }
{
    let mut best = 1;
    for leaf in 1..n + 1 {
        if lows[best as usize] < lows[leaf as usize] {
            best = leaf;
        }
    }
    best
}

// The chain that is shown for the leaf's coordinate: back from it, each time over the least leaf that makes it up.
pub fn shown_chain(
    alloc: Global,
    metric: &Metric,
    path: &Path,
    axis: Axis,
    lows: &[u64],
    last: u64,
) -> Chain
    requires pairs { HasPairsOf (leaf_count metric.now.tree) path.now }
    requires lows { IsLowTable metric.now.tree path.now axis lows.now }
    requires leaf { IsLeaf metric.now.tree last }
    ensures { ShowsLeaf metric.now.tree path.now axis last result }
{
    let _leaves = metric.leaves();
    let mut trail = [0; 33];
    let mut at = 32;
    trail[32] = last;
    while let Some(before) = shown_before(metric, path, axis, lows, trail[at]) {
        at -= 1;
        trail[at] = before;
    }
    match Chain::new(alloc, &trail[at..]) {
        Some(chain) => chain,
        None => unreachable!(),
    }
}

// The least leaf that makes up this one's coordinate.
fn shown_before(metric: &Metric, path: &Path, axis: Axis, lows: &[u64], leaf: u64) -> Option<u64>
    requires pairs { HasPairsOf (leaf_count metric.now.tree) path.now }
    requires lows { IsLowTable metric.now.tree path.now axis lows.now }
    requires leaf { IsLeaf metric.now.tree leaf }
    ensures none { MatchOption result ((a : ℕ) → Places path.now axis a leaf → slice_index lows.now a + leaf_dist metric.now.tree a leaf ≡ slice_index lows.now leaf → ⊥) (λ p. 1 ≤ 1) }
    ensures some { MatchOption result (1 ≤ 1) (λ p. Places path.now axis p leaf × (slice_index lows.now p + leaf_dist metric.now.tree p leaf ≡ slice_index lows.now leaf)) }
    ensures least { MatchOption result (1 ≤ 1) (λ p. (c : ℕ) → c < p → Places path.now axis c leaf → slice_index lows.now c + leaf_dist metric.now.tree c leaf ≡ slice_index lows.now leaf → ⊥) }
{
    let n = metric.leaves();
    for before in 1..n + 1 {
        if makes_up(metric, path, axis, lows, before, leaf) {
            return Some(before);
        }
    }
    None
}

// Whether the leaf `before` is placed before `leaf` and makes up its coordinate.
fn makes_up(metric: &Metric, path: &Path, axis: Axis, lows: &[u64], before: u64, leaf: u64) -> bool
    requires pairs { HasPairsOf (leaf_count metric.now.tree) path.now }
    requires lows { IsLowTable metric.now.tree path.now axis lows.now }
    requires before { IsLeaf metric.now.tree before }
    requires leaf { IsLeaf metric.now.tree leaf }
    ensures { IsTrue result ↔ (Places path.now axis before leaf × (slice_index lows.now before + leaf_dist metric.now.tree before leaf ≡ slice_index lows.now leaf)) }
{
    let _leaves = metric.leaves();
    if !places(path, axis, before, leaf) {
        return false;
    }
    lows[before as usize] + metric.dist(before, leaf) == lows[leaf as usize]
}
