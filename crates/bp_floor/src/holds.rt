// The test of a floor that comes from outside.
ghost use Rattle.std.specs.Prelude.{◌≡◌, ◌≤◌, ◌↔◌, IsTrue};
ghost use Rattle.bp_base.specs.Limits.{most_leaves};
ghost use Rattle.bp_metric.specs.Metric.{IsSheet};
ghost use Rattle.bp_metric.specs.Floor.{FloorHolds, box_side};

use crate::lists::{are_far, are_rising_leaves};
use crate::rows::rows;
use bp_base::{Floor, Sheet};
use bp_metric::Metric;

/// Whether m is at least 1, the leaves are a rising list of at least one leaf, pairwise at least m apart, and the side
/// is the one that so many leaves need on the metric's sheet. All numbers of the floor may be any.
pub fn floor_holds(metric: &Metric, floor: &Floor) -> bool
    ensures { IsTrue result ↔ FloorHolds metric.now.tree metric.now.sheet floor.now }
{
    let leaves = floor.leaves.as_slice();
    if floor.m == 0 || leaves.is_empty() || !are_rising_leaves(metric, leaves) {
        return false;
    }
    if !are_far(metric, leaves, floor.m) {
        return false;
    }
    is_side(metric.sheet(), floor.m, leaves.len() as u64, floor.side)
}

// Whether it is the side that so many points need that are pairwise m apart. The product may be too large for a side.
fn is_side(sheet: Sheet, m: u64, count: u64, side: u64) -> bool
    requires sheet { IsSheet sheet }
    requires m { 1 ≤ m }
    requires count { count ≤ most_leaves }
    ensures { IsTrue result ↔ (side ≡ box_side sheet m count) }
{
    match m.checked_mul(rows(sheet, m, count).saturating_sub(1)) {
        Some(needed) => needed == side,
        None => false,
    }
}
