// What a run has come to once all hands have left.
ghost use Rattle.std.specs.Prelude.{◌≡◌, ◌⊎◌, ◌++◌, Any, IfOk, OnOk, min};
ghost use Rattle.bp_metric.specs.Floor.{IsFloorSide};
ghost use Rattle.bp_metric.specs.Opening.{IsOpening, side_of};
ghost use Rattle.bp_core.specs.Settled.{IsSettled};
ghost use Rattle.bp_machine.specs.Facts.{HasFacts, IsReached, all_records};
ghost use Rattle.bp_machine.specs.Orderly.{IsOrderly, all_set_aside};
ghost use Rattle.bp_machine.specs.Runs.{ArePicked, CanWake, IsOutcome, live_count};

use crate::State;
use crate::hand::Hand;
use bp_base::{NoMemory, Placement, Point, Record, Sequence, Settled, Task};
use bp_metric::Metric;
use std::alloc::Global;

/// What the search has come to: all records, all tasks left, and the best placement. All hands have left. No task is left that may
/// still be examined, so no hand goes on.
pub fn settle(
    alloc: Global,
    metric: &Metric,
    state: State,
    opening: Placement,
) -> Result<Settled, NoMemory>
    requires facts { HasFacts metric.now.tree metric.now.sheet state }
    requires orderly { IsOrderly state }
    requires opening { IsOpening metric.now.tree metric.now.sheet opening.points }
    requires side { opening.side ≡ side_of metric.now.sheet opening.points }
    requires floor { IsFloorSide metric.now.tree metric.now.sheet state.floor }
    requires all_left { live_count state ≡ 0 }
    ensures stays_so { CanWake state → ⊥ }
    ensures settled { IfOk result (λ Z. IsSettled metric.now.tree metric.now.sheet state.budget Z) }
    ensures outcome { IfOk result (λ Z. IsOutcome opening state Z) }
{
    let _leaves = metric.leaves();
    let points = state.picked(alloc, opening)?;
    Ok(state.gather(alloc, points)?)
}

impl State {
    // The points of the best placement.
    fn picked(&self, alloc: Global, opening: Placement) -> Result<Sequence<Point>, NoMemory>
        requires { (self.now.side ≡ opening.side) ⊎ Any (IsReached self.now.side) self.now.hands }
        ensures { IfOk result (λ points. ArePicked opening self.now points) }
    {
        if self.side == opening.side {
            return Ok(opening.points);
        }
        for hand in &self.hands {
            if let Some(best) = &hand.best
                && best.side == self.side
            {
                return copied(alloc, &best.points);
            }
        }
        unreachable!()
    }

    fn gather(self, alloc: Global, points: Sequence<Point>) -> Result<Settled, NoMemory>
        ensures records { IfOk result (λ Z. Z.records ≡ all_records self) }
        ensures left { IfOk result (λ Z. Z.left ≡ all_set_aside self) }
        ensures side { IfOk result (λ Z. Z.side ≡ self.side) }
        ensures points { IfOk result (λ Z. Z.points ≡ points) }
        ensures examined { IfOk result (λ Z. Z.examined ≡ min self.tickets self.budget) }
    {
        let State {
            hands,
            side,
            tickets,
            budget,
            ..
        } = self;
        let mut records = Vec::new(alloc);
        let mut left = Vec::new(alloc);
        for hand in hands {
            hand.hand_over(&mut records, &mut left)?;
        }
        Ok(Settled {
            records: Sequence::from_vec(records),
            left: Sequence::from_vec(left),
            side,
            points,
            examined: tickets.min(budget),
        })
    }
}

impl Hand {
    // Hands over its records and its tasks. It has none in hand.
    fn hand_over(self, records: &mut Vec<Record>, left: &mut Vec<Task>) -> Result<(), NoMemory>
        ensures records { OnOk result (records.new.items ≡ records.old.items ++ self.records) }
        ensures left { OnOk result (left.new.items ≡ left.old.items ++ self.kept ++ self.deque) }
    {
        let Hand {
            mut deque,
            mut kept,
            records: mut own,
            place,
            unplaced,
            best,
            ..
        } = self;
        // Dropped by calls at once: the proof of drops in place goes through all of these wherever memory may lack.
        drop(place);
        drop(unplaced);
        drop(best);
        records.append(&mut own)?;
        left.append(&mut kept)?;
        while let Some(task) = deque.pop_front() {
            left.push(task)?;
        }
        Ok(())
    }
}

fn copied(alloc: Global, points: &Sequence<Point>) -> Result<Sequence<Point>, NoMemory>
    ensures { IfOk result (λ copy. copy ≡ points.now) }
{
    let mut copy = Vec::new(alloc);
    copy.extend_from_slice(points.as_slice())?;
    Ok(Sequence::from_vec(copy))
}
