// A run by the generator's draws.
ghost use Rattle.std.specs.Prelude.{◌≡◌, ◌<◌, ◌≤◌, ◌^◌, IfOk};
ghost use Rattle.bp_base.specs.Limits.{most_budget, most_hands};
ghost use Rattle.bp_metric.specs.Floor.{IsFloorSide};
ghost use Rattle.bp_metric.specs.Opening.{IsOpening, side_of};
ghost use Rattle.bp_core.specs.Settled.{IsSettled};
ghost use Rattle.bp_machine.specs.Runs.{Scheduled};

use crate::run_schedule;
use bp_base::{NoMemory, Placement, SeedSchedule, Settled};
use bp_metric::Metric;
use std::alloc::Global;

/// Runs the machine by the generator's draws from this seed, which is below 2^32. The rest is as for `run_schedule`.
pub fn run_seeded(
    alloc: Global,
    metric: &Metric,
    opening: Placement,
    floor: u64,
    hands: u64,
    budget: u64,
    seed: u64,
) -> Result<Settled, NoMemory>
    requires opening { IsOpening metric.now.tree metric.now.sheet opening.points }
    requires side { opening.side ≡ side_of metric.now.sheet opening.points }
    requires floor { IsFloorSide metric.now.tree metric.now.sheet floor }
    requires above { floor < opening.side }
    requires hands { (1 ≤ hands) × (hands ≤ most_hands) }
    requires budget { (1 ≤ budget) × (budget ≤ most_budget) }
    requires seed { seed < 2 ^ 32 }
    ensures settled { IfOk result (λ Z. IsSettled metric.now.tree metric.now.sheet budget Z) }
    ensures scheduled { IfOk result (λ Z. Scheduled metric.now.tree metric.now.sheet hands budget seed Z) }
{
    let mut schedule = SeedSchedule { state: seed };
    Ok(run_schedule(alloc, metric, opening, floor, hands, budget, &mut schedule)?)
}
