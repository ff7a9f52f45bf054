// Where a search begins.
ghost use Rattle.std.specs.Prelude.{◌≡◌, ◌∷◌, [], ℕ, IfOk};
ghost use Rattle.bp_metric.specs.Opening.{IsOpening, side_of};
ghost use Rattle.bp_core.specs.Underway.{IsUnderway};

use bp_base::{NoMemory, Path, Placement, Sequence, Settled, Task};
use bp_metric::Metric;
use std::alloc::Global;

/// The beginning of a search: the root alone is left, nothing is examined, and the opening is the best placement. The opening is
/// that of the metric, at its side.
pub fn begin(alloc: Global, metric: &Metric, opening: Placement) -> Result<Settled, NoMemory>
    requires opening { IsOpening metric.now.tree metric.now.sheet opening.points }
    requires side { opening.side ≡ side_of metric.now.sheet opening.points }
    ensures beginning { IfOk result (λ Z. Z ≡ record { records = []; left = (record { path = []; bound = opening.side }) ∷ []; side = opening.side; points = opening.points; examined = 0 }) }
    ensures underway { IfOk result (λ Z. (B : ℕ) → IsUnderway metric.now.tree metric.now.sheet B Z) }
{
    let _leaves = metric.leaves();
    let Placement { side, points } = opening;
    let mut left = Sequence::new(alloc);
    left.push(Task {
        path: Path::empty(alloc),
        bound: side,
    })?;
    Ok(Settled {
        records: Sequence::new(alloc),
        left,
        side,
        points,
        examined: 0,
    })
}
