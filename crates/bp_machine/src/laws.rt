// The law of steps.
ghost use Rattle.std.specs.Prelude.{◌≡◌};
ghost use Rattle.bp_machine.specs.declared.event.Event.{Event as AnyEvent};
ghost use Rattle.bp_machine.specs.Facts.{HasFacts};
ghost use Rattle.bp_machine.specs.State.{StateValue};
ghost use Rattle.bp_machine.specs.Steps.{Steps};

use bp_metric::Metric;

/// Each step of the machine keeps the six facts, and leaves the tree and the sheet.
pub fn law_of_steps(metric: &Metric)
    ensures facts { (S to : StateValue) (event : AnyEvent) → S.metric ≡ metric.now → HasFacts metric.now.tree metric.now.sheet S → Steps S event to → HasFacts metric.now.tree metric.now.sheet to }
    ensures metric { (S to : StateValue) (event : AnyEvent) → Steps S event to → to.metric ≡ S.metric }
{
    let _leaves = metric.leaves();
}
