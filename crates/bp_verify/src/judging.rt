// The reasons of a certificate before those of its lemmas.
ghost use Rattle.std.specs.Prelude.{◌≡◌, length, Some};
ghost use Rattle.bp_base.specs.Tree.{leaf_count};
ghost use Rattle.bp_certificate.specs.declared.certificate.Certificate.{Certificate as AnyCertificate};
ghost use Rattle.bp_verify.specs.Verdicts.{HasHead, IsPlanReason, IsReasonBefore, reason_of, verdict_of};

use crate::found::Found;
use crate::verdict::{Reason, Verdict};
use bp_arrangement::{first_inadmissible, is_corner};
use bp_base::{Pair, Sequence};
use bp_certificate::CertificateHead;
use bp_check::are_same;
use bp_floor::floor_holds;
use bp_metric::Metric;
use bp_pairs::{Flaw, is_valid};

/// The first reason before those of the lemmas, against any certificate with this head.
pub fn reason_before_lemmas(metric: &Metric, head: &CertificateHead) -> Option<Reason>
    requires each { length head.now.points ≡ leaf_count head.now.tree }
    requires sheet { head.now.sheet ≡ metric.now.sheet }
    ensures { (C : AnyCertificate) → HasHead C head.now → IsReasonBefore metric.now.tree C result }
{
    if !are_same(metric.tree(), &head.tree) {
        return Some(Reason::TreeDiffers);
    }
    if let Err(flaw) = is_valid(metric, head.side, head.points.as_slice()) {
        return Some(reason_of(flaw));
    }
    if !floor_holds(metric, &head.floor) {
        return Some(Reason::BadFloor);
    }
    match &head.plan {
        None => None,
        Some(plan) => reason_of_plan(metric, plan.corner, plan.swaps.as_slice()),
    }
}

fn reason_of(flaw: Flaw) -> Reason
    ensures { result ≡ reason_of flaw }
{
    match flaw {
        Flaw::Outside { i } => Reason::Outside { i },
        Flaw::Near { i, j } => Reason::TooNear { i, j },
    }
}

// The first reason of a corner and swaps.
fn reason_of_plan(metric: &Metric, corner: Option<Pair>, swaps: &[Sequence<Pair>]) -> Option<Reason>
    ensures { IsPlanReason metric.now.tree swaps.now corner result }
{
    match corner {
        None => Some(Reason::BadCorner),
        Some(pair) => reason_of_swaps(metric, pair, swaps),
    }
}

fn reason_of_swaps(metric: &Metric, corner: Pair, swaps: &[Sequence<Pair>]) -> Option<Reason>
    ensures { IsPlanReason metric.now.tree swaps.now (Some corner) result }
{
    if !is_corner(metric, corner.i, corner.j) {
        return Some(Reason::BadCorner);
    }
    match first_inadmissible(metric, corner.i, corner.j, swaps) {
        None => None,
        Some(number) => Some(Reason::BadSwap { number }),
    }
}

/// The verdict of a certificate against which there is no reason before its lemmas, by what is found of these.
pub fn verdict_of(bound: u64, floor: u64, found: Found) -> Verdict
    ensures { result ≡ verdict_of bound floor found }
{
    match found {
        Found::NoLemmas if bound <= floor => Verdict::Yes,
        Found::WrongLemma { number } => Verdict::No(Reason::BadLemma { number }),
        Found::Standing { ends: true } => Verdict::Yes,
        _ => Verdict::No(Reason::BoundNotShown),
    }
}
