// Laws of the tree metric that the layers above use.
ghost use Rattle.std.specs.Prelude.{◌≡◌, ◌≢◌, ◌+◌, ◌<◌, ◌≤◌, ℕ, IsTrue, IsFalse};
ghost use Rattle.bp_base.specs.Tree.{IsEdge, IsLeaf};
ghost use Rattle.bp_metric.specs.Choices.{are_twins};
ghost use Rattle.bp_metric.specs.Distance.{dist, is_below, leaf_below, leaf_dist, radius};
ghost use Rattle.bp_metric.specs.Valid.{IsPair};

use crate::Metric;

/// The distance of nodes is a metric: it is 0 from a node to itself, the same both ways, and no greater than over a third node.
pub fn triangle(metric: &Metric)
    ensures same { (a : ℕ) → dist metric.now.tree a a ≡ 0 }
    ensures both_ways { (a b : ℕ) → dist metric.now.tree a b ≡ dist metric.now.tree b a }
    ensures third { (a b c : ℕ) → dist metric.now.tree a c ≤ dist metric.now.tree a b + dist metric.now.tree b c }
{
    let _leaves = metric.leaves();
}

/// Two leaves are at least 2 grid units apart.
pub fn leaves_apart(metric: &Metric)
    ensures { (i j : ℕ) → IsPair metric.now.tree i j → 2 ≤ leaf_dist metric.now.tree i j }
{
    let _leaves = metric.leaves();
}

/// Twins are equally far from every third leaf.
pub fn twins_alike(metric: &Metric)
    ensures { (i j k : ℕ) → IsLeaf metric.now.tree i → IsLeaf metric.now.tree j → IsLeaf metric.now.tree k → IsTrue (are_twins metric.now.tree i j) → k ≢ i → k ≢ j → leaf_dist metric.now.tree i k ≡ leaf_dist metric.now.tree j k }
{
    let _leaves = metric.leaves();
}

/// Where neither of two edges is above the other, a leaf below the one and a leaf below the other are at least as far apart as
/// the sum of their radii.
pub fn radii_apart(metric: &Metric)
    ensures { (i j e f : ℕ) → IsEdge metric.now.tree e → IsEdge metric.now.tree f → IsFalse (is_below metric.now.tree e f) → IsFalse (is_below metric.now.tree f e) → IsTrue (leaf_below metric.now.tree i e) → IsTrue (leaf_below metric.now.tree j f) → radius metric.now.tree i e + radius metric.now.tree j f ≤ leaf_dist metric.now.tree i j }
{
    let _leaves = metric.leaves();
}
