// What a claim counts with towards the weight of a refutation.
ghost use Rattle.std.specs.Prelude.{◌≡◌, All};
ghost use Rattle.bp_base.specs.Tree.{IsLeaf};
ghost use Rattle.bp_metric.specs.Nodes.{counted};
ghost use Rattle.bp_chain.specs.Counting.{chain_of, counted_on};

use crate::weighing::weight;
use bp_base::{Axis, Claim, Sheet};
use bp_metric::Metric;

/// What the claim counts with, in grid units: on a square a walk with its weight; on a strip a walk on y with its weight, and a walk on x
/// with 0, or not at all where it is wider than the strip; a cycle never. Its numbers are leaves of the metric's tree.
pub fn counted(metric: &Metric, claim: &Claim) -> Option<u64>
    requires { All (IsLeaf metric.now.tree) (chain_of claim.now) }
    ensures { result ≡ counted metric.now.tree metric.now.sheet claim.now }
{
    match (claim, metric.sheet()) {
        (Claim::Cycle { .. }, _) => None,
        (Claim::Walk { chain, .. }, Sheet::Square) => Some(weight(metric, chain)),
        (Claim::Walk { axis, chain }, Sheet::Strip { width }) => {
            counted_on(*axis, width, weight(metric, chain))
        }
    }
}

fn counted_on(axis: Axis, width: u64, weight: u64) -> Option<u64>
    ensures { result ≡ counted_on axis width weight }
{
    match axis {
        Axis::Y => Some(weight),
        Axis::X if width < weight => None,
        Axis::X => Some(0),
    }
}
