// Laws of documents that check, and of reasons.
ghost use Rattle.std.specs.Prelude.{◌≡◌, ◌≤◌, length};
ghost use Rattle.bp_base.specs.Limits.{most_document_bytes};
ghost use Rattle.bp_base.specs.Tree.{TreeValue, leaf_count};
ghost use Rattle.bp_metric.specs.Valid.{NoneBelow};
ghost use Rattle.bp_document.specs.declared.document.Document.{Document as AnyDocument};
ghost use Rattle.bp_document.specs.Faults.{IsTextOf};
ghost use Rattle.bp_document.specs.Ranges.{IsDocument};
ghost use Rattle.bp_document.specs.Text.{doc_text};
ghost use Rattle.bp_check.specs.declared.verdict.Reason.{Reason as AnyReason};
ghost use Rattle.bp_check.specs.Checks.{Checks};
ghost use Rattle.bp_check.specs.Reasons.{IsFirstReason};
ghost use Rattle.bp_check.specs.Written.{IsWanted};

use bp_document::law_of_sizes;
use bp_floor::law_of_floors;
use bp_metric::Metric;
use bp_symmetry::law_of_refutations;

/// Where a document of the metric's sheet checks against its tree, no placement has a side below its bound, on any finer grid either;
/// its bound is at most its side; and where the two are equal, the side is the least.
pub fn law_of_checks(metric: &Metric)
    ensures none_below { (D : AnyDocument) → D.sheet ≡ metric.now.sheet → Checks metric.now.tree D → NoneBelow metric.now.tree D.sheet D.bound }
    ensures bound { (D : AnyDocument) → D.sheet ≡ metric.now.sheet → Checks metric.now.tree D → D.bound ≤ D.side }
    ensures wanted { (D : AnyDocument) → D.sheet ≡ metric.now.sheet → Checks metric.now.tree D → D.bound ≡ D.side → IsWanted metric.now.tree D.sheet D.side }
{
    law_of_floors(metric);
    law_of_refutations(metric);
}

/// The text of a document that checks is at most 134,217,728 bytes long, so `check_source` reads it as the text of this document.
pub fn law_of_checked_texts()
    ensures short { (T : TreeValue) (D : AnyDocument) → IsDocument D → Checks T D → length (doc_text D) ≤ most_document_bytes }
    ensures text { (T : TreeValue) (D : AnyDocument) → IsDocument D → Checks T D → IsTextOf (doc_text D) D }
{
    law_of_sizes();
}

/// A document that checks has no reason against it.
pub fn checks_without_reason()
    ensures { (T : TreeValue) (D : AnyDocument) (r : AnyReason) → Checks T D → IsFirstReason T D r → ⊥ }
{}

/// There is only one first reason.
pub fn one_reason()
    ensures { (T : TreeValue) (D : AnyDocument) (r s : AnyReason) → IsFirstReason T D r → IsFirstReason T D s → r ≡ s }
{}

/// Where a document has one point per leaf of its own tree and doesn't check, there is a first reason.
pub fn has_reason()
    ensures { (T : TreeValue) (D : AnyDocument) → length D.points ≡ leaf_count D.tree → (Checks T D → ⊥) → (r : AnyReason) × IsFirstReason T D r }
{}
