// Laws of the text of documents.
ghost use Rattle.std.specs.Prelude.{ℕ, ◌≤◌, List, length};
ghost use Rattle.bp_base.specs.Limits.{most_document_bytes};
ghost use Rattle.bp_document.specs.declared.document.Document.{Document as AnyDocument};
ghost use Rattle.bp_document.specs.Faults.{HasOneAnswer, IsTextOf};
ghost use Rattle.bp_document.specs.Ranges.{IsDocument};
ghost use Rattle.bp_document.specs.Scanning.{HasSameFault, IsTooLongForAll};
ghost use Rattle.bp_document.specs.Sizes.{NamesLeaves};
ghost use Rattle.bp_document.specs.Text.{doc_text};

/// Bytes are the text of at most one document or have at most one first fault, and not both.
pub fn law_of_one_answer()
    ensures { (bytes : List ℕ) → HasOneAnswer bytes }
{}

/// A line of more than 512 bytes is of no form at any place, so all such lines have the same fault there.
pub fn law_of_long_lines()
    ensures form { (line : List ℕ) → IsTooLongForAll line }
    ensures fault { (line : List ℕ) (other : List ℕ) → HasSameFault line other }
{}

/// Where a document's claims name leaves of its tree, its text is at most 134,217,728 bytes long, so it is read again.
pub fn law_of_sizes()
    ensures short { (D : AnyDocument) → IsDocument D → NamesLeaves D → length (doc_text D) ≤ most_document_bytes }
    ensures text { (D : AnyDocument) → IsDocument D → NamesLeaves D → IsTextOf (doc_text D) D }
{}
