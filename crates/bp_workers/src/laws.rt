// The law of what hands leave.
ghost use Rattle.std.specs.Prelude.{ℕ, List};
ghost use Rattle.bp_base.specs.declared.point.Point.{Point};
ghost use Rattle.bp_base.specs.declared.record.Task.{Task};
ghost use Rattle.bp_metric.specs.Valid.{Valid};
ghost use Rattle.bp_core.specs.Underway.{IsUnderway};
ghost use Rattle.bp_workers.specs.Gathered.{Deeds, IsGathered, come_to};

use bp_metric::Metric;

/// Once all hands are back, their search is under way, whatever each of them did: no branch is lost, doubled or invented, each record
/// is sound, and no branch was judged against less than the last side.
pub fn law_of_hands(metric: &Metric)
    ensures { (limit : ℕ) (d : Deeds) (left : List Task) (opening_side side drawn : ℕ) (points : List Point) → IsGathered metric.now.tree metric.now.sheet limit d left opening_side side drawn → Valid metric.now.tree metric.now.sheet 1 side points → IsUnderway metric.now.tree metric.now.sheet limit (come_to limit d left side drawn points) }
{
    let _leaves = metric.leaves();
}
