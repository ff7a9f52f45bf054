// Tests of a list of numbers from outside.
ghost use Rattle.std.specs.Prelude.{◌≡◌, ◌≤◌, ◌↔◌, IsTrue};
ghost use Rattle.bp_floor.specs.Lists.{AreFar, AreRisingLeaves};

use crate::taken::is_apart;
use bp_metric::Metric;

// Whether the numbers are a rising list of leaves.
pub fn are_rising_leaves(metric: &Metric, leaves: &[u64]) -> bool
    ensures { IsTrue result ↔ AreRisingLeaves metric.now.tree leaves.now }
{
    let count = metric.leaves();
    let mut last = 0;
    for leaf in leaves {
        if *leaf <= last || *leaf > count {
            return false;
        }
        last = *leaf;
    }
    true
}

// Whether the leaves are pairwise at least m apart.
pub fn are_far(metric: &Metric, leaves: &[u64], m: u64) -> bool
    requires { AreRisingLeaves metric.now.tree leaves.now }
    ensures { IsTrue result ↔ AreFar metric.now.tree m leaves.now }
{
    for at in 0..leaves.len() {
        if !is_apart(metric, &leaves[..at], leaves[at], m) {
            return false;
        }
    }
    true
}
