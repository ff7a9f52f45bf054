// The floor of a tree: the greatest side that its leaves need by counting boxes.
ghost use Rattle.std.specs.Prelude.{◌≡◌, ◌⊎◌, ◌≤◌, ◌<◌, ℕ, IfOk};
ghost use Rattle.bp_base.specs.Tree.{IsLeaf};
ghost use Rattle.bp_metric.specs.Distance.{leaf_dist};
ghost use Rattle.bp_metric.specs.Valid.{IsPair};
ghost use Rattle.bp_metric.specs.Floor.{FloorHolds, IsFloor, floor_at};
ghost use Rattle.bp_floor.specs.Best.{IsBetter, IsFound};
ghost use Rattle.bp_floor.specs.Small.{IsSmall};

use crate::rows::rows;
use crate::taken::taken_of;
use bp_base::{Floor, NoMemory, Sequence};
use bp_metric::Metric;
use std::alloc::Global;

/// The floor of greatest side, in grid units, over all leaf distances, of least m among those. No placement has a
/// smaller side. After NoMemory nothing changed.
pub fn floor(alloc: Global, metric: &Metric) -> Result<Floor, NoMemory>
    ensures floor { IfOk result (λ f. IsFloor metric.now.tree metric.now.sheet f) }
    ensures holds { IfOk result (λ f. FloorHolds metric.now.tree metric.now.sheet f) }
    ensures small { IfOk result (λ f. IsSmall f) }
{
    let count = metric.leaves();
    let mut best = floor_of(alloc, metric, 1, 2)?;
    for j in 2..count + 1 {
        best = best_with(alloc, metric, best, j)?;
    }
    Ok(best)
}

// The better of the floor and of those for the distances of leaf j and the leaves before it.
fn best_with(alloc: Global, metric: &Metric, best: Floor, j: u64) -> Result<Floor, NoMemory>
    requires j { IsLeaf metric.now.tree j }
    requires found { IsFound metric.now.tree metric.now.sheet best }
    ensures found { IfOk result (λ f. IsFound metric.now.tree metric.now.sheet f) }
    ensures better { IfOk result (λ f. IsBetter f best) }
    ensures best { IfOk result (λ f. (i : ℕ) → 1 ≤ i → i < j → IsBetter f (floor_at metric.now.tree metric.now.sheet (leaf_dist metric.now.tree i j))) }
{
    let mut best = best;
    for i in 1..j {
        best = better(best, floor_of(alloc, metric, i, j)?);
    }
    Ok(best)
}

// The floor of the greater side, or of the lesser m where the sides are equal.
fn better(best: Floor, other: Floor) -> Floor
    ensures one { (result ≡ best) ⊎ (result ≡ other) }
    ensures best { IsBetter result best }
    ensures other { IsBetter result other }
{
    if other.side > best.side || other.side == best.side && other.m < best.m {
        other
    } else {
        best
    }
}

// The floor for the distance of two leaves.
fn floor_of(alloc: Global, metric: &Metric, i: u64, j: u64) -> Result<Floor, NoMemory>
    requires pair { IsPair metric.now.tree i j }
    ensures found { IfOk result (λ f. IsFound metric.now.tree metric.now.sheet f) }
    ensures is { IfOk result (λ f. f ≡ floor_at metric.now.tree metric.now.sheet (leaf_dist metric.now.tree i j)) }
{
    let sheet = metric.sheet();
    let m = metric.dist(i, j);
    let leaves = taken_of(alloc, metric, m)?;
    let side = m * rows(sheet, m, leaves.len() as u64).saturating_sub(1);
    Ok(Floor {
        m,
        leaves: Sequence::from_vec(leaves),
        side,
    })
}
