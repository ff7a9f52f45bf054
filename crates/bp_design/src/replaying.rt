// A design by a search that replays.
ghost use Rattle.std.specs.Prelude.{◌≤◌, ◌<◌, ◌^◌, IfOk, false};
ghost use Rattle.bp_base.specs.Limits.{most_budget, most_hands};
ghost use Rattle.bp_design.specs.Design.{IsDesign};
ghost use Rattle.bp_design.specs.Replayed.{IsCountedReplay, IsReplay};

use crate::searched::design_of;
use bp_base::NoMemory;
use bp_check::{law_of_checked_texts, law_of_checks};
use bp_document::Document;
use bp_floor::{floor, law_of_floors};
use bp_machine::run_seeded;
use bp_metric::Metric;
use bp_opening::{one_opening, open};
use std::alloc::Global;

/// The design of the metric's tree on its sheet, as `design` gives it, where the search is worked off by 1 to 16 hands on the calling
/// thread, and the generator's draws from a seed below 2^32 say which of them moves. The budget is from 1 to 200,000 branches.
pub fn replayed(
    alloc: Global,
    metric: &Metric,
    hands: u64,
    budget: u64,
    seed: u64,
) -> Result<Document, NoMemory>
    requires hands { (1 ≤ hands) × (hands ≤ most_hands) }
    requires budget { (1 ≤ budget) × (budget ≤ most_budget) }
    requires seed { seed < 2 ^ 32 }
    ensures design { IfOk result (λ D. IsDesign metric.now.tree metric.now.sheet budget false D) }
    ensures replay { IfOk result (λ D. IsReplay metric.now.tree metric.now.sheet hands budget seed false D) }
{
    let counted = counted_replay(alloc, metric, hands, budget, seed)?;
    Ok(counted.document)
}

/// A design, and how many branches its search examined.
#[derive(Drop)]
pub struct Counted {
    pub document: Document,
    pub examined: u64,
}

/// The same as `replayed`, and how many records its search has: 0 where there is none, since the opening meets the floor.
pub fn counted_replay(
    alloc: Global,
    metric: &Metric,
    hands: u64,
    budget: u64,
    seed: u64,
) -> Result<Counted, NoMemory>
    requires hands { (1 ≤ hands) × (hands ≤ most_hands) }
    requires budget { (1 ≤ budget) × (budget ≤ most_budget) }
    requires seed { seed < 2 ^ 32 }
    ensures design { IfOk result (λ c. IsDesign metric.now.tree metric.now.sheet budget false c.document) }
    ensures counted { IfOk result (λ c. IsCountedReplay metric.now.tree metric.now.sheet hands budget seed c.document c.examined) }
{
    let opening = open(alloc, metric)?;
    let floor = floor(alloc, metric)?;
    law_of_floors(metric);
    law_of_checks(metric);
    law_of_checked_texts();
    one_opening(metric);
    if opening.side > floor.side {
        let settled = run_seeded(alloc, metric, opening, floor.side, hands, budget, seed)?;
        let examined = settled.examined;
        let document = design_of(alloc, metric, settled, floor)?;
        return Ok(Counted { document, examined });
    }
    let tree = metric.tree().copy(alloc)?;
    let document = Document {
        tree,
        side: opening.side,
        bound: opening.side,
        points: opening.points,
        floor,
        proof: None,
        sheet: metric.sheet(),
    };
    Ok(Counted {
        document,
        examined: 0,
    })
}
