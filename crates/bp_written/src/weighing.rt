// What a refutation weighs.
ghost use Rattle.std.specs.Prelude.{◌≡◌};
ghost use Rattle.bp_metric.specs.Nodes.{lesser, weighs};
ghost use Rattle.bp_written.specs.Told.{FitsSome};

use bp_base::Refutation;
use bp_chain::counted;
use bp_metric::Metric;

// The least weight of the walks that count among its proof leaves, or none where no walk counts.
pub fn weighed(metric: &Metric, refutation: &Refutation) -> Option<u64>
    requires { FitsSome metric.now.tree metric.now.sheet refutation.now }
    ensures { result ≡ weighs metric.now.tree metric.now.sheet refutation.now }
{
    match refutation {
        Refutation::Split { children, .. } => {
            let mut least = None;
            for child in children.as_slice() {
                least = lesser(least, weighed(metric, child));
            }
            least
        }
        Refutation::Closed { claim } => counted(metric, claim),
        Refutation::Open { claim } => counted(metric, claim),
    }
}

// The lesser of two weights, where there are any.
fn lesser(first: Option<u64>, second: Option<u64>) -> Option<u64>
    ensures { result ≡ lesser first second }
{
    match (first, second) {
        (None, _) => second,
        (_, None) => first,
        (Some(a), Some(b)) => Some(a.min(b)),
    }
}
