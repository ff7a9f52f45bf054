// The steady answer of a design.
ghost use Rattle.std.specs.Prelude.{ℕ, IfOk, false};
ghost use Rattle.bp_design.specs.Design.{IsDesign};
ghost use Rattle.bp_design.specs.Steadied.{IsSteadied};

use bp_base::NoMemory;
use bp_check::{law_of_checked_texts, law_of_checks};
use bp_document::Document;
use bp_metric::Metric;
use bp_steady::{Steadied, steady};
use std::alloc::Global;

/// A design by the steady answer, or that the budget didn't reach.
#[derive(Drop)]
pub enum SteadyDesign {
    Found(Document),
    Unsteady,
}

/// A design with the steady points of its side, where its bound is its side, or else as it is. The budget is how many paths the searches
/// under bounds may examine that find them.
pub fn steadied(
    alloc: Global,
    metric: &Metric,
    document: Document,
    budget: u64,
) -> Result<SteadyDesign, NoMemory>
    requires { (B : ℕ) × IsDesign metric.now.tree metric.now.sheet B false document }
    ensures { IfOk result (IsSteadied metric.now.tree metric.now.sheet budget document) }
{
    law_of_checks(metric);
    law_of_checked_texts();
    if document.bound < document.side {
        return Ok(SteadyDesign::Found(document));
    }
    let side = document.side;
    match steady(alloc, metric, side, document.points.as_slice(), budget)? {
        Steadied::Points(points) => Ok(SteadyDesign::Found(Document {
            tree: document.tree,
            side,
            bound: document.bound,
            points,
            floor: document.floor,
            proof: document.proof,
            sheet: document.sheet,
        })),
        Steadied::Spent => Ok(SteadyDesign::Unsteady),
    }
}
