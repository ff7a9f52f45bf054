// The leaves that are taken in order, each where it is far enough from all taken ones.
ghost use Rattle.std.specs.Prelude.{◌≡◌, ◌≤◌, ◌<◌, ℕ, length, slice_index, nat_le, IfOk};
ghost use Rattle.std.specs.List.{list_all};
ghost use Rattle.bp_base.specs.Tree.{IsLeaf, leaf_count};
ghost use Rattle.bp_metric.specs.Distance.{leaf_dist};
ghost use Rattle.bp_metric.specs.Floor.{taken};
ghost use Rattle.bp_floor.specs.Best.{AreApart};

use bp_base::NoMemory;
use bp_metric::Metric;
use std::alloc::Global;

// The leaves taken for the distance m.
pub fn taken_of(alloc: Global, metric: &Metric, m: u64) -> Result<Vec<u64>, NoMemory>
    ensures is { IfOk result (λ v. v.items ≡ taken metric.now.tree m) }
    ensures apart { IfOk result (λ v. AreApart metric.now.tree m (leaf_count metric.now.tree) v.items) }
{
    let mut leaves = Vec::new(alloc);
    let count = metric.leaves();
    for leaf in 1..count + 1 {
        if is_apart(metric, &leaves, leaf, m) {
            leaves.push(leaf)?;
        }
    }
    Ok(leaves)
}

// Whether the leaf is at least m from each of the others.
pub fn is_apart(metric: &Metric, others: &[u64], leaf: u64, m: u64) -> bool
    requires others { (k : ℕ) → k < length others.now → IsLeaf metric.now.tree (slice_index others.now k) }
    requires leaf { IsLeaf metric.now.tree leaf }
    ensures { result ≡ list_all (λ k. nat_le m (leaf_dist metric.now.tree k leaf)) others.now }
{
    for other in others {
        if metric.dist(*other, leaf) < m {
            return false;
        }
    }
    true
}
