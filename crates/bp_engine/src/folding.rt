// The FOLD text of a document's regions.
ghost use Rattle.std.specs.Prelude.{◌≡◌, ◌≤◌, IfOk};
ghost use Rattle.bp_base.specs.declared.point.Sheet.TheVariants.{Square as square};
ghost use Rattle.bp_base.specs.Limits.{most_number};
ghost use Rattle.bp_fold.specs.FoldText.{fold_text};
ghost use Rattle.bp_metric.specs.Valid.{Valid};
ghost use Rattle.bp_engine.specs.Designs.{AreDisjoint, IsFoldTextOf};

use crate::text::Text;
use bp_base::{Failed, NoMemory, Placement, Sheet};
use bp_document::Document;
use bp_fold::{Drawing, draw, write_fold};
use bp_metric::Metric;
use bp_regions::{Regions, law_of_regions};
use std::alloc::Global;

// The text of the drawing of a square's regions, which are disjoint for disjoint subtrees.
pub fn fold_text(alloc: Global, document: Document) -> Result<Vec<u8>, NoMemory>
    requires side { document.side ≤ most_number }
    requires valid { Valid document.tree square 1 document.side document.points }
    ensures text { IfOk result (λ v. IsFoldTextOf document v.items) }
    ensures disjoint { IfOk result (λ v. AreDisjoint document) }
{
    let metric = Metric::on(alloc, &document.tree, Sheet::Square)?;
    law_of_regions(&metric);
    let placement = Placement {
        side: document.side,
        points: document.points,
    };
    let regions = Regions::of(alloc, &metric, &placement)?;
    let drawing = draw(alloc, &regions)?;
    text_of(alloc, &drawing)
}

fn text_of(alloc: Global, drawing: &Drawing) -> Result<Vec<u8>, NoMemory>
    ensures { IfOk result (λ v. v.items ≡ fold_text drawing.now) }
{
    let mut text = Text::new(alloc);
    match write_fold(drawing, &mut text) {
        Ok(()) => Ok(text.bytes),
        Err(Failed) => Err(NoMemory),
    }
}
