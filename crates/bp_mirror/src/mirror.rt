// Whether pairs are a mirror.
ghost use Rattle.std.specs.Prelude.{◌↔◌, IsTrue};
ghost use Rattle.bp_mirror.specs.Mirror.{IsMirror};

use bp_arrangement::is_admissible;
use bp_base::Pair;
use bp_metric::Metric;

/// Whether the pairs are a mirror of the tree: at most 16 pairs of leaves, all different, whose exchange keeps all distances. They may
/// name any numbers. It takes no memory.
pub fn is_mirror(metric: &Metric, pairs: &[Pair]) -> bool
    ensures mirror { IsTrue result ↔ IsMirror metric.now.tree pairs.now }
{
    // a swap that moves neither 0 nor 0, which is no leaf
    pairs.is_empty() || is_admissible(metric, 0, 0, pairs)
}
