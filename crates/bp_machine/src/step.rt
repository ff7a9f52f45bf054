// The step: an event takes place where it is lawful.
ghost use Rattle.std.specs.Prelude.{◌≡◌, ◌≢◌, ◌<◌, ◌≤◌, ◌+◌, [], ℕ, length, IfOk, OnErr, OnOk};
ghost use Rattle.std.specs.Bool.{OnFalse, OnTrue};
ghost use Rattle.std.specs.List.{sum_by};
ghost use Rattle.bp_base.specs.declared.point.Placement.{Placement as AnyPlacement};
ghost use Rattle.bp_base.specs.declared.record.Left.{Left as AnyLeft};
ghost use Rattle.bp_base.specs.declared.record.Task.{Task as AnyTask};
ghost use Rattle.bp_base.specs.Limits.{most_number};
ghost use Rattle.bp_branch.specs.Branches.{IsBranch};
ghost use Rattle.bp_machine.specs.declared.event.Took.TheVariants.{Done, Unlawful};
ghost use Rattle.bp_machine.specs.declared.event.Event.TheVariants.{Pop, Steal, Draw, Load, Examine, Offer, Push, Keep, Leave};
ghost use Rattle.bp_machine.specs.declared.place.Place.TheVariants.{Ready, Taking, Trying, Holding, Drawn, Offering, Pushing, Leaving};
ghost use Rattle.bp_machine.specs.Facts.{HasFacts, spends};
ghost use Rattle.bp_machine.specs.Lawful.{HasSource, IsLawful, stands};
ghost use Rattle.bp_machine.specs.State.{HandValue, IsHand, StateValue};
ghost use Rattle.bp_machine.specs.Steps.{Steps, hand_of, most_empty_takes};

use crate::laws::law_of_steps;
use crate::{Event, Place, State, Took};
use bp_base::NoMemory;
use bp_metric::Metric;
use std::alloc::Global;

impl State {
    /// Takes the event's step where the event is lawful. The metric is that of `open`.
    pub fn step(&mut self, alloc: Global, metric: &Metric, event: Event) -> Result<Took, NoMemory>
        requires metric { self.old.metric ≡ metric.now }
        requires facts { HasFacts metric.now.tree metric.now.sheet self.old }
        ensures done { IfOk result (λ took. took ≡ Done → Steps self.old event self.new) }
        ensures unlawful { IfOk result (λ took. took ≡ Unlawful → (to : StateValue) → Steps self.old event to → ⊥) }
        ensures unchanged { IfOk result (λ took. took ≡ Unlawful → self.new ≡ self.old) }
        ensures memory { OnErr result (self.new ≡ self.old) }
        ensures facts { HasFacts metric.now.tree metric.now.sheet self.new }
        ensures metric { self.new.metric ≡ self.old.metric }
    {
        law_of_steps(metric);
        if !self.is_lawful(event) {
            return Ok(Took::Unlawful);
        }
        self.take(alloc, metric, event)?;
        Ok(Took::Done)
    }

    // Whether the event stands at the place of its hand, and its hands are there.
    fn is_lawful(&self, event: Event) -> bool
        ensures yes { OnTrue result (IsLawful self.now event) }
        ensures no { OnFalse result (IsLawful self.now event → ⊥) }
    {
        let number = hand_of(event);
        if !self.has_hand(number) {
            return false;
        }
        let hand = &self.hands[number as usize - 1];
        stands(&hand.place, event) && self.has_source(event)
    }

    fn has_hand(&self, number: u64) -> bool
        ensures yes { OnTrue result ((1 ≤ number) × (number ≤ length self.now.hands)) }
        ensures no { OnFalse result ((h : HandValue) → IsHand self.now number h → ⊥) }
    {
        1 <= number && number <= self.hands.len() as u64
    }

    // Whether the hand is there that the event steals from.
    fn has_source(&self, event: Event) -> bool
        ensures yes { OnTrue result (HasSource self.now event) }
        ensures no { OnFalse result (HasSource self.now event → ⊥) }
    {
        match event {
            Event::Steal { from, .. } => self.has_hand(from),
            _ => true,
        }
    }

    // Takes the step of a lawful event.
    pub(crate) fn take(
        &mut self,
        alloc: Global,
        metric: &Metric,
        event: Event,
    ) -> Result<(), NoMemory>
        requires metric { self.old.metric ≡ metric.now }
        requires facts { HasFacts metric.now.tree metric.now.sheet self.old }
        requires lawful { IsLawful self.old event }
        ensures done { OnOk result (Steps self.old event self.new) }
        ensures memory { OnErr result (self.new ≡ self.old) }
    {
        let _leaves = metric.leaves();
        match event {
            Event::Load { hand } => self.load(hand),
            Event::Pop { hand } => self.pop(hand),
            Event::Steal { hand, from } => self.steal(hand, from),
            Event::Draw { hand } => self.draw(hand)?,
            Event::Examine { hand } => self.examine(alloc, metric, hand)?,
            Event::Offer { hand } => self.offer(hand),
            Event::Push { hand } => self.push(hand)?,
            Event::Keep { hand } => self.keep(hand)?,
            Event::Leave { hand } => self.leave(hand),
        }
        Ok(())
    }

    fn examine(&mut self, alloc: Global, metric: &Metric, number: u64) -> Result<(), NoMemory>
        requires metric { self.old.metric ≡ metric.now }
        requires hand { (h : HandValue) × IsHand self.old number h × (h.unplaced ≡ []) × ((t : AnyTask) × (n : ℕ) × (h.place ≡ Drawn t n) × IsBranch metric.now.tree t.path × (t.bound ≤ most_number)) }
        ensures done { OnOk result (Steps self.old (Examine number) self.new) }
        ensures memory { OnErr result (self.new ≡ self.old) }
    {
        let seat = number as usize - 1;
        self.hands[seat].examine(alloc, metric, &mut self.examiners[seat])?;
        Ok(())
    }

    fn load(&mut self, number: u64)
        requires { (h : HandValue) × IsHand self.old number h × (h.place ≡ Ready) }
        ensures { Steps self.old (Load number) self.new }
    {
        let (side, floor) = (self.side, self.floor);
        self.hands[number as usize - 1].load(side, floor);
    }

    fn pop(&mut self, number: u64)
        requires { (h : HandValue) × IsHand self.old number h × (h.place ≡ Taking) × (h.empty_takes < most_empty_takes) }
        ensures { Steps self.old (Pop number) self.new }
    {
        let count = self.hands.len() as u64;
        self.hands[number as usize - 1].pop(count, number);
    }

    fn steal(&mut self, number: u64, from: u64)
        requires hand { (h : HandValue) × IsHand self.old number h × (h.place ≡ Trying from) × (h.empty_takes < most_empty_takes) }
        requires apart { from ≢ number }
        requires source { (other : HandValue) × IsHand self.old from other }
        ensures { Steps self.old (Steal number from) self.new }
    {
        let count = self.hands.len() as u64;
        let stolen = self.hands[from as usize - 1].give();
        self.hands[number as usize - 1].receive(count, number, from, stolen);
    }

    fn draw(&mut self, number: u64) -> Result<(), NoMemory>
        requires hand { (h : HandValue) × IsHand self.old number h × ((t : AnyTask) × (h.place ≡ Holding t)) }
        requires word { self.old.tickets ≤ self.old.budget + sum_by (λ (h : HandValue). spends h.place) self.old.hands }
        ensures done { OnOk result (Steps self.old (Draw number) self.new) }
        ensures memory { OnErr result (self.new ≡ self.old) }
    {
        let (ticket, budget) = (self.tickets, self.budget);
        self.hands[number as usize - 1].draw(ticket, budget)?;
        self.tickets += 1;
        Ok(())
    }

    fn offer(&mut self, number: u64)
        requires { (h : HandValue) × IsHand self.old number h × ((p : AnyPlacement) × (h.place ≡ Offering p)) }
        ensures { Steps self.old (Offer number) self.new }
    {
        let side = self.hands[number as usize - 1].offer();
        self.side = self.side.min(side);
    }

    fn push(&mut self, number: u64) -> Result<(), NoMemory>
        requires { (h : HandValue) × IsHand self.old number h × (h.place ≡ Pushing) × (0 < length h.unplaced) }
        ensures done { OnOk result (Steps self.old (Push number) self.new) }
        ensures memory { OnErr result (self.new ≡ self.old) }
    {
        self.hands[number as usize - 1].push()?;
        Ok(())
    }

    fn keep(&mut self, number: u64) -> Result<(), NoMemory>
        requires { (h : HandValue) × IsHand self.old number h × (h.place ≡ Pushing) × (0 < length h.unplaced) }
        ensures done { OnOk result (Steps self.old (Keep number) self.new) }
        ensures memory { OnErr result (self.new ≡ self.old) }
    {
        self.hands[number as usize - 1].keep()?;
        Ok(())
    }

    fn leave(&mut self, number: u64)
        requires { (h : HandValue) × IsHand self.old number h × ((l : AnyLeft) × (h.place ≡ Leaving l)) }
        ensures { Steps self.old (Leave number) self.new }
    {
        self.hands[number as usize - 1].leave();
    }
}

// The hand that the event is a step of.
fn hand_of(event: Event) -> u64
    ensures { result ≡ hand_of event }
{
    match event {
        Event::Pop { hand }
        | Event::Steal { hand, .. }
        | Event::Draw { hand }
        | Event::Load { hand }
        | Event::Examine { hand }
        | Event::Offer { hand }
        | Event::Push { hand }
        | Event::Keep { hand }
        | Event::Leave { hand } => hand,
    }
}

// Whether the place is that of the event.
fn stands(place: &Place, event: Event) -> bool
    ensures { result ≡ stands place.now event }
{
    match event {
        Event::Load { .. } => matches!(place, Place::Ready),
        Event::Pop { .. } => matches!(place, Place::Taking),
        Event::Steal { hand, from } => {
            matches!(place, Place::Trying { from: tried } if *tried == from) && from != hand
        }
        Event::Draw { .. } => matches!(place, Place::Holding { .. }),
        Event::Examine { .. } => matches!(place, Place::Drawn { .. }),
        Event::Offer { .. } => matches!(place, Place::Offering { .. }),
        Event::Push { .. } | Event::Keep { .. } => matches!(place, Place::Pushing),
        Event::Leave { .. } => matches!(place, Place::Leaving { .. }),
    }
}
