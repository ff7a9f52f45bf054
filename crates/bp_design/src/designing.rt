// The smallest sheet for a tree, as far as the budget goes.
ghost use Rattle.std.specs.Prelude.{◌≤◌, IfOk, false};
ghost use Rattle.bp_base.specs.Limits.{most_budget, most_hands};
ghost use Rattle.bp_design.specs.Design.{IsDesign};

use crate::searched::searched;
use bp_base::{Gate, NoMemory};
use bp_check::{law_of_checked_texts, law_of_checks};
use bp_document::Document;
use bp_floor::{floor, law_of_floors};
use bp_metric::Metric;
use bp_opening::open;
use std::alloc::Global;
use std::thread::Threads;

/// The design of the metric's tree on its sheet: its opening packing where that meets the floor, or else what a search finds that examines
/// at most as many branches as the budget, which is at most 200,000, by 1 to 16 hands on threads.
pub fn design<R: Threads + Sync, G: Gate + Sync>(
    rt: &R,
    alloc: Global,
    metric: &Metric,
    hands: u64,
    budget: u64,
    gate: &G,
) -> Result<Document, NoMemory>
    requires hands { (1 ≤ hands) × (hands ≤ most_hands) }
    requires budget { budget ≤ most_budget }
    ensures { IfOk result (λ D. IsDesign metric.now.tree metric.now.sheet budget false D) }
{
    let opening = open(alloc, metric)?;
    let floor = floor(alloc, metric)?;
    law_of_floors(metric);
    law_of_checks(metric);
    law_of_checked_texts();
    if opening.side > floor.side {
        return searched(rt, alloc, metric, opening, floor, hands, budget, gate);
    }
    let tree = metric.tree().copy(alloc)?;
    Ok(Document {
        tree,
        side: opening.side,
        bound: opening.side,
        points: opening.points,
        floor,
        proof: None,
        sheet: metric.sheet(),
    })
}
