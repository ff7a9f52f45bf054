// A run of the machine: a schedule says which live hand moves next, until all have left.
ghost use Rattle.std.specs.Prelude.{◌≡◌, ◌<◌, ◌≤◌, ℕ, true, IfOk, OnErr, OnOk};
ghost use Rattle.bp_base.specs.Limits.{most_budget, most_hands};
ghost use Rattle.bp_metric.specs.Floor.{IsFloorSide};
ghost use Rattle.bp_metric.specs.Opening.{IsOpening, side_of};
ghost use Rattle.bp_core.specs.Settled.{IsSettled};
ghost use Rattle.bp_machine.specs.Facts.{HasFacts};
ghost use Rattle.bp_machine.specs.Orderly.{IsOrderly, event_at};
ghost use Rattle.bp_machine.specs.Runs.{IsLiveHand, IsScheduled, Moves, live_count, stays};
ghost use Rattle.bp_machine.specs.State.{HandValue, IsHand};

use crate::laws::law_of_steps;
use crate::settling::settle;
use crate::{Event, Place, State};
use bp_base::{NoMemory, Placement, Schedule, Settled};
use bp_metric::Metric;
use std::alloc::Global;

/// Runs the machine with so many hands: each answer of the schedule moves one live hand by one event, until all have left. There are
/// 1 to 16 hands, and the budget, in tickets, is from 1 to 200,000. The opening is that of the metric, and its side, in grid units,
/// is above the floor's. After NoMemory the schedule has moved by any number of its turns.
pub fn run_schedule<Q: Schedule>(
    alloc: Global,
    metric: &Metric,
    opening: Placement,
    floor: u64,
    hands: u64,
    budget: u64,
    schedule: &mut Q,
) -> Result<Settled, NoMemory>
    requires opening { IsOpening metric.now.tree metric.now.sheet opening.points }
    requires side { opening.side ≡ side_of metric.now.sheet opening.points }
    requires floor { IsFloorSide metric.now.tree metric.now.sheet floor }
    requires above { floor < opening.side }
    requires hands { (1 ≤ hands) × (hands ≤ most_hands) }
    requires budget { (1 ≤ budget) × (budget ≤ most_budget) }
    ensures settled { IfOk result (λ Z. IsSettled metric.now.tree metric.now.sheet budget Z) }
    ensures scheduled { IfOk result (λ Z. IsScheduled Q.turns metric.now opening floor hands budget schedule.old schedule.new Z) }
{
    let _leaves = metric.leaves();
    law_of_steps(metric);
    let mut state = State::begin(alloc, metric, &opening, floor, hands, budget)?;
    loop {
        let live = state.live();
        if live == 0 {
            return settle(alloc, metric, state, opening);
        }
        let answer = schedule.turn(live);
        state.turn(alloc, metric, answer)?;
    }
}

impl State {
    // How many hands haven't left.
    fn live(&self) -> u64
        ensures { result ≡ live_count self.now }
    {
        let mut live = 0;
        for hand in &self.hands {
            if hand.place.stays() {
                live += 1;
            }
        }
        live
    }

    // The number of a live hand, which are counted from 0 in rising order.
    fn live_hand(&self, answer: u64) -> u64
        requires { answer < live_count self.now }
        ensures { IsLiveHand self.now answer result }
    {
        let mut before = answer;
        let mut number = 1;
        for hand in &self.hands {
            if hand.place.stays() {
                if before == 0 {
                    return number;
                }
                before -= 1;
            }
            number += 1;
        }
        unreachable!()
    }

    // Moves this live hand by its event. After NoMemory nothing changed.
    fn turn(&mut self, alloc: Global, metric: &Metric, answer: u64) -> Result<(), NoMemory>
        requires metric { self.old.metric ≡ metric.now }
        requires facts { HasFacts metric.now.tree metric.now.sheet self.old }
        requires orderly { IsOrderly self.old }
        requires live { answer < live_count self.old }
        ensures done { OnOk result (Moves self.old answer self.new) }
        ensures memory { OnErr result (self.new ≡ self.old) }
    {
        let number = self.live_hand(answer);
        let event = event_at(number, &self.hands[number as usize - 1].place);
        self.take(alloc, metric, event)?;
        Ok(())
    }
}

impl Place {
    // Whether a hand at this place hasn't left.
    fn stays(&self) -> bool
        ensures { result ≡ stays self.now }
    {
        !matches!(self, Place::Gone { .. })
    }
}

// The event of a hand at this place, which hasn't left.
fn event_at(hand: u64, place: &Place) -> Event
    requires { stays place.now ≡ true }
    ensures { result ≡ event_at hand place.now }
{
    match place {
        Place::Ready => Event::Load { hand },
        Place::Taking => Event::Pop { hand },
        Place::Trying { from } => Event::Steal { hand, from: *from },
        Place::Holding { .. } => Event::Draw { hand },
        Place::Drawn { .. } => Event::Examine { hand },
        Place::Offering { .. } => Event::Offer { hand },
        Place::Pushing => Event::Push { hand },
        Place::Leaving { .. } => Event::Leave { hand },
        Place::Gone { .. } => unreachable!(),
    }
}
