// An old design for new lengths.
ghost use Rattle.std.specs.Prelude.{◌≡◌, ◌≤◌, ℕ, [], IfOk, length};
ghost use Rattle.bp_base.specs.Limits.{most_document_bytes};
ghost use Rattle.bp_metric.specs.Metric.{IsMetric, IsSheet};
ghost use Rattle.bp_metric.specs.Nodes.{nodes_of};
ghost use Rattle.bp_metric.specs.Refutation.{Fits};
ghost use Rattle.bp_metric.specs.Valid.{NoneBelow, Valid};
ghost use Rattle.bp_document.specs.Ranges.{IsDocument};
ghost use Rattle.bp_document.specs.Text.{doc_text};
ghost use Rattle.bp_check.specs.Checks.{Checks};
ghost use Rattle.bp_check.specs.Written.{IsWanted};
ghost use Rattle.bp_revise.specs.Apart.{open_paths};
ghost use Rattle.bp_revise.specs.Course.{IsBegun, IsOnCourse};
ghost use Rattle.bp_revise.specs.Keep.{AreOfOneShape};
ghost use Rattle.bp_revise.specs.Revised.{HasRoom, IsRevised};

use crate::apart::{Parts, take_apart};
use crate::keeping::keep;
use crate::searching::search;
use crate::starting::start;
use bp_base::{MOST_PROOF_LINES, NoMemory, Path, Placement, Refutation, Sequence, Settled, Tree};
use bp_check::{law_of_checked_texts, law_of_checks};
use bp_document::Document;
use bp_floor::floor;
use bp_metric::Metric;
use bp_written::document_of;
use std::alloc::Global;

/// The old design revised for a tree of the same shape: it keeps of the old proof what still closes on the new lengths, and searches the
/// rest on one hand, as far as the budget goes, in branches examined. The old design checks against its own tree.
pub fn revise(alloc: Global, tree: &Tree, old: Document, budget: u64) -> Result<Document, NoMemory>
    requires checks { Checks old.tree old }
    requires sheet { IsSheet old.sheet }
    requires room { HasRoom old.proof }
    requires shape { AreOfOneShape old.tree tree.now }
    ensures revised { IfOk result (λ D. IsRevised tree.now old budget D) }
    ensures ranges { IfOk result (λ D. IsDocument D) }
    ensures short { IfOk result (λ D. length (doc_text D) ≤ most_document_bytes) }
    ensures none_below { IfOk result (λ D. NoneBelow tree.now old.sheet D.bound) }
    ensures bound { IfOk result (λ D. D.bound ≤ D.side) }
    ensures smallest { IfOk result (λ D. D.bound ≡ D.side → IsWanted tree.now old.sheet D.side) }
{
    match Metric::on(alloc, tree, old.sheet) {
        Ok(metric) => {
            let revised = revise_on(alloc, &metric, tree, old, budget);
            drop(metric);
            revised
        }
        Err(error) => {
            drop(old);
            Err(error)
        }
    }
}

// The same on the metric of the tree and the old sheet.
fn revise_on(
    alloc: Global,
    metric: &Metric,
    _tree: &Tree,
    old: Document,
    budget: u64,
) -> Result<Document, NoMemory>
    requires checks { Checks old.tree old }
    requires room { HasRoom old.proof }
    requires shape { AreOfOneShape old.tree _tree.now }
    requires value { metric.now ≡ record { tree = _tree.now; sheet = old.sheet } }
    requires metric { IsMetric metric.now }
    ensures revised { IfOk result (λ D. IsRevised _tree.now old budget D) }
    ensures ranges { IfOk result (λ D. IsDocument D) }
    ensures short { IfOk result (λ D. length (doc_text D) ≤ most_document_bytes) }
    ensures none_below { IfOk result (λ D. NoneBelow _tree.now old.sheet D.bound) }
    ensures bound { IfOk result (λ D. D.bound ≤ D.side) }
    ensures smallest { IfOk result (λ D. D.bound ≡ D.side → IsWanted _tree.now old.sheet D.side) }
{
    law_of_checks(metric);
    law_of_checked_texts();
    let Document {
        points,
        proof,
        tree,
        floor: given,
        ..
    } = old;
    drop((tree, given));
    let start = start(alloc, metric, points)?;
    let kept = keep(alloc, metric, start.side, proof)?;
    let begun = begin(alloc, metric, start, kept)?;
    let floor = floor(alloc, metric)?;
    let nodes = (begun.records.len() + begun.left.len()) as u64;
    let room = (MOST_PROOF_LINES - nodes) / 4;
    let settled = search(alloc, metric, begun, floor.side, budget.min(room))?;
    let document = document_of(alloc, metric, settled, floor)?;
    Ok(document)
}

// What is kept as a search on its way.
fn begin(
    alloc: Global,
    metric: &Metric,
    start: Placement,
    kept: Refutation,
) -> Result<Settled, NoMemory>
    requires fits { Fits metric.now.tree metric.now.sheet kept [] }
    requires valid { Valid metric.now.tree metric.now.sheet 1 start.side start.points }
    ensures begun { IfOk result (λ Z. IsBegun metric.now.tree metric.now.sheet kept Z.records Z.left) }
    ensures course { IfOk result (λ Z. IsOnCourse metric.now.tree metric.now.sheet start Z.records (open_paths (nodes_of metric.now.tree metric.now.sheet kept)) Z) }
    ensures none { IfOk result (λ Z. Z.examined ≡ 0) }
{
    let mut parts = Parts {
        records: Sequence::new(alloc),
        left: Sequence::new(alloc),
    };
    let root = Path::empty(alloc);
    take_apart(alloc, metric, &kept, start.side, &root, &mut parts)?;
    let Placement { side, points } = start;
    Ok(Settled {
        records: parts.records,
        left: parts.left,
        side,
        points,
        examined: 0,
    })
}
