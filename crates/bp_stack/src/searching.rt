// The search.
ghost use Rattle.std.specs.Prelude.{IfOk};
ghost use Rattle.bp_metric.specs.Floor.{IsFloorSide};
ghost use Rattle.bp_core.specs.Settled.{IsSettled};
ghost use Rattle.bp_core.specs.Underway.{IsUnderway};

use crate::turns::work_on;
use bp_base::{NoMemory, Sequence, Settled};
use bp_metric::Metric;
use bp_turn::Examiner;
use std::alloc::Global;

/// Works a search off as a stack: the last branch left is examined next, and each takes the next number as its ticket. It ends
/// where the side, in grid units, is at or below the floor's, where no branch is left, or where as many as the budget are examined.
/// What it ends with can be searched on, with a greater budget. After NoMemory all is gone.
pub fn search(
    alloc: Global,
    metric: &Metric,
    start: Settled,
    floor: u64,
    budget: u64,
) -> Result<Settled, NoMemory>
    requires underway { IsUnderway metric.now.tree metric.now.sheet budget start }
    requires floor { IsFloorSide metric.now.tree metric.now.sheet floor }
    ensures settled { IfOk result (λ Z. IsSettled metric.now.tree metric.now.sheet budget Z) }
    ensures underway { IfOk result (λ Z. IsUnderway metric.now.tree metric.now.sheet budget Z) }
{
    let mut search = start;
    let mut examiner = Examiner::open(alloc, metric)?;
    let mut children = Sequence::new(alloc);
    while search.side > floor && search.examined < budget {
        match search.left.pop() {
            None => return Ok(search),
            Some(task) => {
                work_on(
                    alloc,
                    metric,
                    &mut examiner,
                    &mut children,
                    &mut search,
                    task,
                )?;
            }
        }
    }
    Ok(search)
}
