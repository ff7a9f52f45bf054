// The coordinates of one axis: each leaf in turn gets the greatest that the steps before it ask for.
ghost use Rattle.std.specs.Prelude.{◌≡◌, ◌⊎◌, ◌+◌, ◌≤◌, ◌<◌, ℕ, MatchResult, length, slice_index};
ghost use Rattle.bp_base.specs.Path.{IsPairOf};
ghost use Rattle.bp_base.specs.Tree.{leaf_count, IsLeaf};
ghost use Rattle.bp_metric.specs.Chains.{HasPairsOf, Places, PlacesBy};
ghost use Rattle.bp_metric.specs.Coordinates.{IsLoop};
ghost use Rattle.bp_metric.specs.Distance.{leaf_dist, most_distance};
ghost use Rattle.bp_walks.specs.Lows.{IsLowTable, places, most_low};

use crate::cycles::cycle_from;
use crate::opens::{first_open, ready};
use crate::orders::before;
use bp_base::{Axis, Chain, Path, Step};
use bp_metric::Metric;
use std::alloc::Global;

// The low coordinates of all leaves on the axis, or a cycle.
pub fn lows_on(alloc: Global, metric: &Metric, path: &Path, axis: Axis) -> Result<[u64; 33], Chain>
    requires { HasPairsOf (leaf_count metric.now.tree) path.now }
    ensures { MatchResult result (λ lows. IsLowTable metric.now.tree path.now axis lows) (λ chain. IsLoop (leaf_count metric.now.tree) path.now axis chain) }
{
    let n = metric.leaves();
    let mut lows = [0; 33];
    let mut open = [1; 33];
    while let Some(leaf) = ready(path, axis, n, &open) {
        lows[leaf as usize] = greatest(metric, path, axis, &lows, leaf);
        open[leaf as usize] = 0;
    }
    match first_open(n, &open) {
        None => Ok(lows),
        Some(start) => Err(cycle_from(alloc, path, axis, n, &open, start)),
    }
}

// The greatest that the steps which place a leaf before this one ask for.
fn greatest(metric: &Metric, path: &Path, axis: Axis, lows: &[u64], leaf: u64) -> u64
    requires pairs { HasPairsOf (leaf_count metric.now.tree) path.now }
    requires each { length lows.now ≡ places }
    requires small { (i : ℕ) → slice_index lows.now i ≤ most_low }
    ensures meets { (p : ℕ) → Places path.now axis p leaf → slice_index lows.now p + leaf_dist metric.now.tree p leaf ≤ result }
    ensures made_up { (result ≡ 0) ⊎ ((p : ℕ) × Places path.now axis p leaf × (slice_index lows.now p + leaf_dist metric.now.tree p leaf ≡ result)) }
{
    let mut most = 0;
    for k in 0..path.len() {
        let asked = asked_by(metric, axis, path.at(k), lows, leaf);
        if most < asked {
            most = asked;
        }
    }
    most
}

// What one step asks for, or 0 where it places nothing before the leaf.
fn asked_by(metric: &Metric, axis: Axis, step: Step, lows: &[u64], leaf: u64) -> u64
    requires pair { IsPairOf (leaf_count metric.now.tree) step.pair }
    requires each { length lows.now ≡ places }
    requires small { (i : ℕ) → slice_index lows.now i ≤ most_low }
    ensures meets { (p : ℕ) → PlacesBy axis p leaf step.pair step.choice → slice_index lows.now p + leaf_dist metric.now.tree p leaf ≡ result }
    ensures made_up { (result ≡ 0) ⊎ ((p : ℕ) × PlacesBy axis p leaf step.pair step.choice × (slice_index lows.now p + leaf_dist metric.now.tree p leaf ≡ result)) }
{
    let _leaves = metric.leaves();
    match before(axis, step, leaf) {
        Some(p) => lows[p as usize] + metric.dist(p, leaf),
        None => 0,
    }
}
