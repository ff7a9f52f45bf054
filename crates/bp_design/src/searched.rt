// From a search to the document that is written of it.
ghost use Rattle.std.specs.Prelude.{◌≤◌, ◌<◌, ℕ, IfOk, false};
ghost use Rattle.bp_base.specs.Limits.{most_budget, most_hands};
ghost use Rattle.bp_metric.specs.Opening.{IsOpeningSide};
ghost use Rattle.bp_core.specs.Settled.{IsSettled};
ghost use Rattle.bp_written.specs.Told.{IsFloorOf};
ghost use Rattle.bp_design.specs.Replayed.{IsToldOf};
ghost use Rattle.bp_design.specs.Searched.{IsAbove, IsOpeningOf, IsSearched};

use bp_base::{Floor, Gate, NoMemory, Placement, Settled};
use bp_core::law_of_left;
use bp_document::Document;
use bp_metric::Metric;
use bp_opening::one_opening;
use bp_workers::run_hands;
use bp_written::document_of;
use std::alloc::Global;
use std::thread::Threads;

// Searches from the opening by so many hands, as far as the budget goes, in branches examined, and makes a document of what was found. The opening's
// side is greater than the floor's.
pub fn searched<R: Threads + Sync, G: Gate + Sync>(
    rt: &R,
    alloc: Global,
    metric: &Metric,
    opening: Placement,
    floor: Floor,
    hands: u64,
    budget: u64,
    gate: &G,
) -> Result<Document, NoMemory>
    requires opening { IsOpeningOf metric.now.tree metric.now.sheet opening }
    requires floor { IsFloorOf metric.now.tree metric.now.sheet floor }
    requires apart { floor.side < opening.side }
    requires hands { (1 ≤ hands) × (hands ≤ most_hands) }
    requires budget { budget ≤ most_budget }
    ensures { IfOk result (λ D. IsSearched metric.now.tree metric.now.sheet budget D) }
{
    one_opening(metric);
    let settled = run_hands(rt, alloc, metric, opening, floor.side, hands, budget, gate)?;
    design_of(alloc, metric, settled, floor)
}

// What a search has come to, as a design.
pub fn design_of(
    alloc: Global,
    metric: &Metric,
    settled: Settled,
    floor: Floor,
) -> Result<Document, NoMemory>
    requires floor { IsFloorOf metric.now.tree metric.now.sheet floor }
    requires above { (v : ℕ) → IsOpeningSide metric.now.tree metric.now.sheet v → IsAbove floor v }
    requires settled { (B : ℕ) × (B ≤ most_budget) × IsSettled metric.now.tree metric.now.sheet B settled }
    ensures searched { IfOk result (λ D. (B : ℕ) → IsSettled metric.now.tree metric.now.sheet B settled → IsSearched metric.now.tree metric.now.sheet B D) }
    ensures told { IfOk result (λ D. IsToldOf metric.now.tree metric.now.sheet settled false D) }
{
    let _leaves = metric.leaves();
    one_opening(metric);
    law_of_left(metric);
    let document = document_of(alloc, metric, settled, floor)?;
    Ok(document)
}
