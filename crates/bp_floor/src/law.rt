// Laws of floors.
ghost use Rattle.std.specs.Prelude.{◌≡◌, ◌≤◌, ℕ};
ghost use Rattle.bp_base.specs.declared.point.Floor.{Floor as AnyFloor};
ghost use Rattle.bp_metric.specs.Valid.{NoneBelow};
ghost use Rattle.bp_metric.specs.Floor.{FloorHolds, IsFloor, IsFloorSide};
ghost use Rattle.bp_metric.specs.Opening.{IsOpeningSide};

use bp_metric::Metric;
use bp_opening::opening_valid;

/// The law of floors: where a floor holds, no placement has a smaller side, on no finer grid either.
pub fn law_of_floors(metric: &Metric)
    ensures { (f : AnyFloor) → FloorHolds metric.now.tree metric.now.sheet f → NoneBelow metric.now.tree metric.now.sheet f.side }
{}

/// A tree has only one floor on a sheet.
pub fn one_floor(metric: &Metric)
    ensures { (f g : AnyFloor) → IsFloor metric.now.tree metric.now.sheet f → IsFloor metric.now.tree metric.now.sheet g → f ≡ g }
{}

/// Each tree has a floor on each sheet.
pub fn has_floor(metric: &Metric)
    ensures { (f : AnyFloor) × IsFloor metric.now.tree metric.now.sheet f }
{
    let _count = metric.leaves();
}

/// The side of the floor is never greater than that of the opening, which is valid there.
pub fn floor_within_opening(metric: &Metric)
    ensures { (l u : ℕ) → IsFloorSide metric.now.tree metric.now.sheet l → IsOpeningSide metric.now.tree metric.now.sheet u → l ≤ u }
{
    let _count = metric.leaves();
    opening_valid(metric);
}
