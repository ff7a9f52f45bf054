// Whether a document is a right design of a tree.
ghost use Rattle.std.specs.Prelude.{◌≡◌, ◌≤◌, ◌↔◌, length, IsTrue, IfOk};
ghost use Rattle.bp_base.specs.Tree.{leaf_count};
ghost use Rattle.bp_metric.specs.Metric.{IsSheet};
ghost use Rattle.bp_metric.specs.Valid.{NoneBelow, Valid};
ghost use Rattle.bp_document.specs.declared.document.Document.{Document as AnyDocument};
ghost use Rattle.bp_check.specs.declared.verdict.Reason.{Reason as AnyReason};
ghost use Rattle.bp_check.specs.declared.verdict.Reason.TheVariants.{StripSheet};
ghost use Rattle.bp_check.specs.declared.verdict.Verdict.TheVariants.{No, Yes};
ghost use Rattle.bp_check.specs.Checks.{Checks};
ghost use Rattle.bp_check.specs.Reasons.{IsFirstReason};
ghost use Rattle.bp_check.specs.Verdicts.{HasParts, IsFoundOf, IsReasonBeforeProof, IsVerdictOf, is_shown, reason_of, verdict_of};
ghost use Rattle.bp_check.specs.Written.{IsWanted};

use crate::found::Found;
use crate::laws::law_of_checks;
use crate::verdict::{Reason, Verdict};
use crate::visit::found_in;
use bp_base::{Floor, Name, NoMemory, Point, Refutation, Tree};
use bp_document::Document;
use bp_floor::floor_holds;
use bp_metric::Metric;
use bp_pairs::{Flaw, is_valid};
use std::alloc::Global;

/// Whether the document is a right design of the tree, and the first reason where it isn't. It shares no code with the search. A
/// document that checks has a valid placement, and no placement has a side, on a strip a height, below its bound. The document has one
/// point per leaf of its own tree, and a strip's width is at most 999,999.
pub fn check(alloc: Global, tree: &Tree, document: &Document) -> Result<Verdict, NoMemory>
    requires each { length document.now.points ≡ leaf_count document.now.tree }
    requires sheet { IsSheet document.now.sheet }
    ensures yes { IfOk result (λ v. (v ≡ Yes) ↔ Checks tree.now document.now) }
    ensures no { IfOk result (λ v. (reason : AnyReason) → ((v ≡ No reason) ↔ IsFirstReason tree.now document.now reason)) }
    ensures no_strip { IfOk result (λ v. v ≡ No StripSheet → ⊥) }
    ensures valid { IfOk result (λ v. v ≡ Yes → Valid tree.now document.now.sheet 1 document.now.side document.now.points) }
    ensures none_below { IfOk result (λ v. v ≡ Yes → NoneBelow tree.now document.now.sheet document.now.bound) }
    ensures bound { IfOk result (λ v. v ≡ Yes → document.now.bound ≤ document.now.side) }
    ensures wanted { IfOk result (λ v. v ≡ Yes → document.now.bound ≡ document.now.side → IsWanted tree.now document.now.sheet document.now.side) }
{
    let metric = Metric::on(alloc, tree, document.sheet)?;
    law_of_checks(&metric);
    judge(alloc, &metric, document)
}

fn judge(alloc: Global, metric: &Metric, document: &Document) -> Result<Verdict, NoMemory>
    requires each { length document.now.points ≡ leaf_count document.now.tree }
    requires sheet { document.now.sheet ≡ metric.now.sheet }
    ensures { IfOk result (λ v. IsVerdictOf metric.now.tree document.now v) }
{
    let points = document.points.as_slice();
    let floor = &document.floor;
    let reason = reason_before_proof(metric, &document.tree, document.side, points, floor);
    if let Some(reason) = reason {
        return Ok(Verdict::No(reason));
    }
    let found = found_of_proof(alloc, metric, &document.proof)?;
    Ok(verdict_of(document.bound, document.floor.side, found))
}

/// The first reason before those of the proof, against any document that has these parts and the metric's sheet.
pub fn reason_before_proof(
    metric: &Metric,
    own: &Tree,
    side: u64,
    points: &[Point],
    floor: &Floor,
) -> Option<Reason>
    requires each { length points.now ≡ leaf_count own.now }
    ensures { (D : AnyDocument) → HasParts D own.now metric.now.sheet side points.now floor.now → IsReasonBeforeProof metric.now.tree D result }
{
    if !are_same(metric.tree(), own) {
        return Some(Reason::TreeDiffers);
    }
    if let Err(flaw) = is_valid(metric, side, points) {
        return Some(reason_of(flaw));
    }
    if !floor_holds(metric, floor) {
        return Some(Reason::BadFloor);
    }
    None
}

/// Whether two trees are the same.
pub fn are_same(tree: &Tree, other: &Tree) -> bool
    ensures { IsTrue result ↔ (other.now ≡ tree.now) }
{
    if tree.parents() != other.parents() {
        return false;
    }
    if tree.lengths() != other.lengths() {
        return false;
    }
    are_same_names(tree.names(), other.names())
}

fn are_same_names(names: &[Name], others: &[Name]) -> bool
    ensures { IsTrue result ↔ (others.now ≡ names.now) }
{
    if names.len() != others.len() {
        return false;
    }
    for k in 0..names.len() {
        if names[k].bytes() != others[k].bytes() {
            return false;
        }
    }
    true
}

fn reason_of(flaw: Flaw) -> Reason
    ensures { result ≡ reason_of flaw }
{
    match flaw {
        Flaw::Outside { i } => Reason::Outside { i },
        Flaw::Near { i, j } => Reason::TooNear { i, j },
    }
}

// What is found of the proof, where there is one.
fn found_of_proof(
    alloc: Global,
    metric: &Metric,
    proof: &Option<Refutation>,
) -> Result<Found, NoMemory>
    ensures { IfOk result (λ f. IsFoundOf metric.now.tree metric.now.sheet proof.now f) }
{
    match proof {
        None => Ok(Found::Sound { weight: None }),
        Some(refutation) => found_in(alloc, metric, refutation),
    }
}

/// The verdict of valid points and a floor that holds, by what is found of the proof.
pub fn verdict_of(bound: u64, floor: u64, found: Found) -> Verdict
    ensures { result ≡ verdict_of bound floor found }
{
    match found {
        Found::Sound { weight } => {
            if is_shown(bound, floor, weight) {
                Verdict::Yes
            } else {
                Verdict::No(Reason::BoundNotShown)
            }
        }
        Found::WrongChain { node } => Verdict::No(Reason::BadChain { node }),
        Found::WrongSplit { node } => Verdict::No(Reason::BadSplit { node }),
    }
}

// Whether the bound is at most the floor's side, or at most the weight.
fn is_shown(bound: u64, floor: u64, weight: Option<u64>) -> bool
    ensures { result ≡ is_shown bound floor weight }
{
    match weight {
        None => bound <= floor,
        Some(weight) => bound <= floor || bound <= weight,
    }
}
