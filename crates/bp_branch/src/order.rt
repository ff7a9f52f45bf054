// All pairs of leaves, in the order in which a next pair is looked for.
ghost use Rattle.std.specs.Prelude.{◌≡◌, ◌+◌, ◌≤◌, ◌<◌, ℕ, List, All, IfOk, OnOk, length, slice_index_or};
ghost use Rattle.bp_base.specs.declared.path.Pair.{Pair as AnyPair};
ghost use Rattle.bp_base.specs.declared.path.Step.{Step};
ghost use Rattle.bp_base.specs.Limits.{most_number};
ghost use Rattle.bp_base.specs.Path.{IsPairOf};
ghost use Rattle.bp_base.specs.Tree.{leaf_count};
ghost use Rattle.bp_metric.specs.Coordinates.{IsLeast};
ghost use Rattle.bp_metric.specs.Distance.{leaf_dist};
ghost use Rattle.bp_metric.specs.Next.{IsNext};
ghost use Rattle.bp_branch.specs.Nearest.{IsBest};
ghost use Rattle.bp_branch.specs.Orders.{AreOrdered, IsPairOrder};
ghost use Rattle.bp_branch.specs.Outcomes.{IsCyclic, IsOutcome};

use crate::pairs::is_near;
use bp_base::{Least, NoMemory, Outcome, Pair};
use bp_metric::Metric;
use std::alloc::Global;
use std::marker::Model;

/// All pairs of a metric's leaves: the one of greatest distance first, and of equal ones that of least number. Contracts see their
/// list. A search makes it once, since then the first near pair is the next one.
#[derive(Drop)]
pub struct PairOrder {
    pairs: Vec<Pair>,
}

impl Model for PairOrder {
    ghost use Rattle.std.specs.Prelude.{List};
    ghost use Rattle.bp_base.specs.declared.path.Pair.{Pair};

    ghost Value = { List Pair };

    ghost view = { λ o. o.pairs.items };
}

impl PairOrder {
    /// The pairs of the metric's leaves.
    pub fn of(alloc: Global, metric: &Metric) -> Result<PairOrder, NoMemory>
        ensures { IfOk result (λ order. IsPairOrder metric.now.tree order) }
    {
        let mut pairs = Vec::new(alloc);
        for i in 1..metric.leaves() {
            add_row(metric, &mut pairs, i)?;
        }
        Ok(PairOrder { pairs })
    }

    /// What `next_pair` gives, where the order is the metric's.
    pub fn next_pair(&self, metric: &Metric, least: &Least) -> Option<Pair>
        requires order { IsPairOrder metric.now.tree self.now }
        requires least { (path : List Step) × IsLeast metric.now.tree metric.now.sheet path least.now }
        ensures { (path : List Step) → IsLeast metric.now.tree metric.now.sheet path least.now → IsNext metric.now.tree path result }
    {
        first_near(
            metric,
            &self.pairs,
            least.xs.as_slice(),
            least.ys.as_slice(),
        )
    }

    /// What `judge` gives, where the order is the metric's. The bound is in grid units.
    pub fn judge(&self, metric: &Metric, least: &Least, bound: u64) -> Outcome
        requires order { IsPairOrder metric.now.tree self.now }
        requires least { (path : List Step) × IsLeast metric.now.tree metric.now.sheet path least.now }
        requires bound { bound ≤ most_number }
        ensures outcome { (path : List Step) → IsLeast metric.now.tree metric.now.sheet path least.now → IsOutcome metric.now.tree metric.now.sheet path bound result }
        ensures no_cycle { IsCyclic result → ⊥ }
    {
        if least.forced >= bound {
            return Outcome::Closed(least.claim.copy());
        }
        match self.next_pair(metric, least) {
            None => Outcome::Solved {
                side: least.forced,
                claim: least.claim.copy(),
            },
            Some(pair) => Outcome::Split(pair),
        }
    }
}

// The first of all pairs in order that is near.
fn first_near(metric: &Metric, pairs: &[Pair], xs: &[u64], ys: &[u64]) -> Option<Pair>
    requires order { IsPairOrder metric.now.tree pairs.now }
    requires xs { length xs.now ≡ leaf_count metric.now.tree }
    requires ys { length ys.now ≡ leaf_count metric.now.tree }
    ensures { IsBest metric.now.tree xs.now ys.now (leaf_count metric.now.tree) 0 result }
{
    for pair in pairs {
        if is_near(metric, xs, ys, *pair) {
            return Some(*pair);
        }
    }
    None
}

// Adds the pairs that begin with leaf i.
fn add_row(metric: &Metric, pairs: &mut Vec<Pair>, i: u64) -> Result<(), NoMemory>
    requires leaf { (1 ≤ i) × (i < leaf_count metric.now.tree) }
    requires ordered { AreOrdered metric.now.tree i 0 pairs.old.items }
    ensures { OnOk result (AreOrdered metric.now.tree (i + 1) 0 pairs.new.items) }
{
    let leaves = metric.leaves();
    for j in i + 1..leaves + 1 {
        add(metric, pairs, Pair { i, j })?;
    }
    Ok(())
}

// Adds a pair at its place.
fn add(metric: &Metric, pairs: &mut Vec<Pair>, pair: Pair) -> Result<(), NoMemory>
    requires pair { IsPairOf (leaf_count metric.now.tree) pair }
    requires ordered { AreOrdered metric.now.tree pair.i pair.j pairs.old.items }
    ensures { OnOk result (AreOrdered metric.now.tree pair.i (pair.j + 1) pairs.new.items) }
{
    let place = place_of(metric, pairs, pair);
    pairs.insert(place, pair)?;
    Ok(())
}

// The place of the first pair of lesser distance, or the number of pairs where there is none.
fn place_of(metric: &Metric, pairs: &[Pair], pair: Pair) -> usize
    requires pair { IsPairOf (leaf_count metric.now.tree) pair }
    requires pairs { All (λ (p : AnyPair). IsPairOf (leaf_count metric.now.tree) p) pairs.now }
    ensures within { result ≤ length pairs.now }
    ensures before { (k : ℕ) (d : AnyPair) → k < result → leaf_dist metric.now.tree pair.i pair.j ≤ leaf_dist metric.now.tree (slice_index_or pairs.now k d).i (slice_index_or pairs.now k d).j }
    ensures there { (d : AnyPair) → result < length pairs.now → leaf_dist metric.now.tree (slice_index_or pairs.now result d).i (slice_index_or pairs.now result d).j < leaf_dist metric.now.tree pair.i pair.j }
{
    let apart = metric.dist(pair.i, pair.j);
    for (k, other) in pairs.iter().enumerate() {
        if metric.dist(other.i, other.j) < apart {
            return k;
        }
    }
    pairs.len()
}
