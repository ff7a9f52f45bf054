// The design of one tree of a batch.
ghost use Rattle.std.specs.Prelude.{◌≤◌, IfOk, false};
ghost use Rattle.bp_base.specs.declared.point.Sheet.TheVariants.{Square};
ghost use Rattle.bp_base.specs.Limits.{most_budget};
ghost use Rattle.bp_design.specs.Design.{IsDesign};
ghost use Rattle.bp_design.specs.Replayed.{IsReplay};

use bp_base::{NoMemory, Tree};
use bp_design::replayed;
use bp_document::Document;
use bp_metric::Metric;
use std::alloc::Global;

/// The design of a tree on a square, by one hand on the calling thread. The budget is from 1 to 200,000 branches.
pub fn design_tree(alloc: Global, tree: Tree, budget: u64) -> Result<Document, NoMemory>
    requires budget { (1 ≤ budget) × (budget ≤ most_budget) }
    // The document is of this tree and a square, and it is what `design` writes with this budget.
    ensures design { IfOk result (λ D. IsDesign tree Square budget false D) }
    // Where there is a search, the document tells what one hand of the machine comes to. The seed is 0: with one hand a schedule has no choice.
    ensures replay { IfOk result (λ D. IsReplay tree Square 1 budget 0 false D) }
{
    let metric = Metric::of(alloc, &tree)?;
    let document = replayed(alloc, &metric, 1, budget, 0)?;
    Ok(document)
}
