// The weight of a chain.
ghost use Rattle.std.specs.Prelude.{◌≡◌, ◌≤◌, All};
ghost use Rattle.bp_base.specs.Tree.{IsLeaf};
ghost use Rattle.bp_metric.specs.Chains.{chain_weight};

use bp_base::Chain;
use bp_metric::Metric;

/// The sum of the distances of neighbours in the list, in grid units. The numbers are leaves of the metric's tree.
pub fn weight(metric: &Metric, chain: &Chain) -> u64
    requires { All (λ i. IsLeaf metric.now.tree i) chain.now }
    ensures { result ≡ chain_weight metric.now.tree chain.now }
{
    let mut sum = 0;
    for k in 1..chain.len() {
        sum += metric.dist(chain.at(k - 1), chain.at(k));
    }
    sum
}
