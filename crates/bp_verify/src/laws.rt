// Laws of right certificates, and of reasons.
ghost use Rattle.std.specs.Prelude.{◌≡◌, ◌≤◌};
ghost use Rattle.bp_base.specs.Tree.{TreeValue};
ghost use Rattle.bp_metric.specs.Valid.{NoneBelow, Valid};
ghost use Rattle.bp_certificate.specs.declared.certificate.Certificate.{Certificate as AnyCertificate};
ghost use Rattle.bp_verify.specs.declared.verdict.Reason.{Reason as AnyReason};
ghost use Rattle.bp_verify.specs.Certifies.{Certifies};
ghost use Rattle.bp_verify.specs.declared.found.Found.{Found as AnyFound};
ghost use Rattle.bp_verify.specs.Reasons.{IsFirstReason};
ghost use Rattle.bp_verify.specs.Verdicts.{IsFoundOf, IsSoundSoFar, IsVerdictOf, verdict_of};

use bp_floor::law_of_floors;
use bp_lemmas::law_of_lemmas;
use bp_metric::Metric;

/// Where a certificate of the metric's sheet is right of its tree, its points are a valid placement at its side, no placement has a
/// side below its bound, on any finer grid either, and its bound is at most its side.
pub fn law_of_certificates(metric: &Metric)
    ensures valid { (C : AnyCertificate) → Certifies metric.now.tree C → Valid metric.now.tree C.sheet 1 C.side C.points }
    ensures none_below { (C : AnyCertificate) → C.sheet ≡ metric.now.sheet → Certifies metric.now.tree C → NoneBelow metric.now.tree C.sheet C.bound }
    ensures bound { (C : AnyCertificate) → C.sheet ≡ metric.now.sheet → Certifies metric.now.tree C → C.bound ≤ C.side }
{
    law_of_floors(metric);
    law_of_lemmas(metric);
}

/// A right certificate has no reason against it.
pub fn certifies_without_reason()
    ensures { (T : TreeValue) (C : AnyCertificate) (r : AnyReason) → Certifies T C → IsFirstReason T C r → ⊥ }
{}

/// There is only one first reason.
pub fn one_reason()
    ensures { (T : TreeValue) (C : AnyCertificate) (r s : AnyReason) → IsFirstReason T C r → IsFirstReason T C s → r ≡ s }
{}

/// Where there is no reason before the lemmas, the verdict is the one by what is found of these.
pub fn law_of_verdicts()
    ensures { (T : TreeValue) (C : AnyCertificate) (f : AnyFound) → IsSoundSoFar T C → IsFoundOf T C f → IsVerdictOf T C (verdict_of C.bound C.floor.side f) }
{}
