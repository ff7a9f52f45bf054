// From a search to the document that tells it.
ghost use Rattle.std.specs.Prelude.{◌≡◌, IfOk};
ghost use Rattle.bp_document.specs.Ranges.{IsDocument};
ghost use Rattle.bp_check.specs.Checks.{Checks};
ghost use Rattle.bp_check.specs.Written.{bound_of};
ghost use Rattle.bp_written.specs.Told.{CanBeTold, IsDocumentOf, IsFloorOf};

use crate::weighing::weighed;
use bp_base::{Floor, NoMemory, Settled};
use bp_document::Document;
use bp_floor::law_of_floors;
use bp_join::join;
use bp_metric::Metric;
use bp_symmetry::refutation_counts;
use std::alloc::Global;

/// The document of the metric's tree on its sheet that tells a search, with the tree's floor: the search's side, in grid units, and its
/// points. Where the side is the floor's it has no proof; else its proof is made of all records and all branches left, and its bound is
/// what that shows, in grid units too. After NoMemory the search and the floor are gone.
pub fn document_of(
    alloc: Global,
    metric: &Metric,
    settled: Settled,
    floor: Floor,
) -> Result<Document, NoMemory>
    requires settled { CanBeTold metric.now.tree metric.now.sheet settled }
    requires floor { IsFloorOf metric.now.tree metric.now.sheet floor }
    ensures told { IfOk result (λ D. IsDocumentOf metric.now.tree metric.now.sheet settled floor D) }
    ensures checks { IfOk result (λ D. Checks metric.now.tree D) }
    ensures ranges { IfOk result (λ D. IsDocument D) }
{
    law_of_floors(metric);
    refutation_counts(metric);
    let tree = metric.tree().copy(alloc)?;
    let sheet = metric.sheet();
    let Settled {
        records,
        left,
        side,
        points,
        ..
    } = settled;
    if side == floor.side {
        return Ok(Document {
            tree,
            side,
            bound: side,
            points,
            floor,
            proof: None,
            sheet,
        });
    }
    let refutation = join(alloc, metric, records.into_vec(), left.into_vec())?;
    let bound = bound_of(side, floor.side, weighed(metric, &refutation));
    Ok(Document {
        tree,
        side,
        bound,
        points,
        floor,
        proof: Some(refutation),
        sheet,
    })
}

// The bound that a proof of this weight gives.
fn bound_of(side: u64, floor: u64, weight: Option<u64>) -> u64
    ensures { result ≡ bound_of side floor weight }
{
    match weight {
        None => side,
        Some(weight) => side.min(floor.max(weight)),
    }
}
