// A state of the machine, and its beginning.
ghost use Rattle.std.specs.Prelude.{◌≡◌, ◌<◌, ◌≤◌, IfOk, replicate};
ghost use Rattle.bp_base.specs.Limits.{most_budget, most_hands};
ghost use Rattle.bp_metric.specs.Floor.{IsFloorSide};
ghost use Rattle.bp_metric.specs.Opening.{IsOpening, side_of};
ghost use Rattle.bp_machine.specs.Facts.{HasFacts};
ghost use Rattle.bp_machine.specs.State.{begun, begun_hands};

use crate::hand::Hand;
use bp_base::{NoMemory, Path, Placement, Sheet, Task, Tree};
use bp_metric::Metric;
use bp_turn::Examiner;
use std::alloc::Global;
use std::marker::Model;

/// A state of the machine: its hands, and the words that they share. Sides are in grid units.
#[derive(Drop)]
pub struct State {
    tree: Tree,
    sheet: Sheet,
    pub(crate) hands: Vec<Hand>,
    // one for each hand
    pub(crate) examiners: Vec<Examiner>,
    pub(crate) side: u64,
    pub(crate) tickets: u64,
    pub(crate) budget: u64,
    pub(crate) floor: u64,
}

impl Model for State {
    ghost use Rattle.std.specs.Prelude.{◌≡◌, ◌≤◌, length, replicate};
    ghost use Rattle.bp_base.specs.Limits.{most_budget, most_hands};
    ghost use Rattle.bp_machine.specs.State.{StateValue};

    ghost Value = { StateValue };

    ghost view = { λ s. record { metric = record { tree = s.tree; sheet = s.sheet }; hands = s.hands.items; side = s.side; tickets = s.tickets; budget = s.budget; floor = s.floor } };

    ghost invariant = { λ s. (s.examiners.items ≡ replicate (length s.hands.items) (record { tree = s.tree; sheet = s.sheet })) × (length s.hands.items ≤ most_hands) × (s.budget ≤ most_budget) };
}

impl State {
    /// The beginning of a search: no hand has taken a step, and the root stands in hand 1's deque. There are 1 to 16 hands, and the
    /// budget, in tickets, is from 1 to 200,000. The opening is that of the metric, and its side is above the floor's.
    pub fn open(
        alloc: Global,
        metric: &Metric,
        opening: Placement,
        floor: u64,
        hands: u64,
        budget: u64,
    ) -> Result<State, NoMemory>
        requires opening { IsOpening metric.now.tree metric.now.sheet opening.points }
        requires side { opening.side ≡ side_of metric.now.sheet opening.points }
        requires floor { IsFloorSide metric.now.tree metric.now.sheet floor }
        requires above { floor < opening.side }
        requires hands { (1 ≤ hands) × (hands ≤ most_hands) }
        requires budget { (1 ≤ budget) × (budget ≤ most_budget) }
        ensures state { IfOk result (λ S. S ≡ begun metric.now opening.side floor hands budget) }
        ensures facts { IfOk result (λ S. HasFacts metric.now.tree metric.now.sheet S) }
    {
        State::begin(alloc, metric, &opening, floor, hands, budget)
    }

    /// The same, of an opening that is lent.
    pub(crate) fn begin(
        alloc: Global,
        metric: &Metric,
        opening: &Placement,
        floor: u64,
        hands: u64,
        budget: u64,
    ) -> Result<State, NoMemory>
        requires opening { IsOpening metric.now.tree metric.now.sheet opening.now.points }
        requires side { opening.now.side ≡ side_of metric.now.sheet opening.now.points }
        requires floor { IsFloorSide metric.now.tree metric.now.sheet floor }
        requires above { floor < opening.now.side }
        requires hands { (1 ≤ hands) × (hands ≤ most_hands) }
        requires budget { (1 ≤ budget) × (budget ≤ most_budget) }
        ensures state { IfOk result (λ S. S ≡ begun metric.now opening.now.side floor hands budget) }
        ensures facts { IfOk result (λ S. HasFacts metric.now.tree metric.now.sheet S) }
    {
        let side = opening.side;
        let tree = metric.tree().copy(alloc)?;
        let sheet = metric.sheet();
        Ok(State {
            tree,
            sheet,
            hands: fresh_hands(alloc, side, hands)?,
            examiners: examiners(alloc, metric, hands)?,
            side,
            tickets: 0,
            budget,
            floor,
        })
    }
}

// The hands of the beginning: the first one has the root.
fn fresh_hands(alloc: Global, side: u64, count: u64) -> Result<Vec<Hand>, NoMemory>
    requires { 1 ≤ count }
    ensures { IfOk result (λ hands. hands.items ≡ begun_hands side count) }
{
    let mut first = Hand::open(alloc, side);
    first.put(Task {
        path: Path::empty(alloc),
        bound: side,
    })?;
    let mut hands = Vec::new(alloc);
    hands.push(first)?;
    for number in 1..count {
        hands.push(Hand::open(alloc, side))?;
    }
    Ok(hands)
}

// One for each hand.
fn examiners(alloc: Global, metric: &Metric, count: u64) -> Result<Vec<Examiner>, NoMemory>
    ensures { IfOk result (λ all. all.items ≡ replicate count metric.now) }
{
    let mut all = Vec::new(alloc);
    for number in 0..count {
        all.push(Examiner::open(alloc, metric)?)?;
    }
    Ok(all)
}
