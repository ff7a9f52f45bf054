// A tree or a document that a source gives, read whole.
ghost use Rattle.std.specs.Prelude.{◌≡◌, ℕ, List, Some, IfOk, IfErr};
ghost use Rattle.bp_base.specs.Causes.{Rose};
ghost use Rattle.bp_base.specs.Tree.{TreeValue};
ghost use Rattle.bp_document.specs.Ranges.{IsDocument};
ghost use Rattle.bp_tree.specs.Text.{TreeOf};
ghost use Rattle.bp_engine.specs.Reading.{ReadsDoc, ReadsNoDoc, ReadsNoTree, ReadsTree};

use crate::Status;
use bp_base::{MOST_DOCUMENT_BYTES, MOST_TREE_BYTES, ReadError, Source, Tree, read_whole};
use bp_document::{Document, ReadDoc, read_document};
use bp_tree::{ReadTree, read_tree};
use std::alloc::Global;

// The tree of all bytes of a source, or the status where none comes.
pub fn given_tree<T: Source>(alloc: Global, source: &mut T) -> Result<Tree, Status>
    ensures reads { IfOk result (λ t. ReadsTree (T.left source.old) (T.left source.new) t) }
    ensures only { IfOk result (λ t. (b : List ℕ) (U : TreeValue) → T.left source.old ≡ Some b → TreeOf b U → U ≡ t) }
    ensures none { IfErr result (λ s. ReadsNoTree (T.left source.old) (T.left source.new) s) }
    ensures failed { IfErr result (λ s. s ≡ Status.ReadFault → Rose (T.faults source.old) (T.faults source.new)) }
{
    match read_whole(alloc, source, MOST_TREE_BYTES + 1) {
        Ok(bytes) => match read_tree(alloc, &bytes) {
            Ok(tree) => Ok(tree),
            Err(ReadTree::Fault(fault)) => Err(Status::TreeRefused(fault)),
            Err(ReadTree::NoMemory) => Err(Status::NoMemory),
        },
        Err(ReadError::Failed) => Err(Status::ReadFault),
        Err(ReadError::NoMemory) => Err(Status::NoMemory),
    }
}

// The document of all bytes of a source, or the status where none comes.
pub fn given_document<D: Source>(alloc: Global, source: &mut D) -> Result<Document, Status>
    ensures reads { IfOk result (λ d. ReadsDoc (D.left source.old) (D.left source.new) d) }
    ensures ranges { IfOk result (λ d. IsDocument d) }
    ensures none { IfErr result (λ s. ReadsNoDoc (D.left source.old) (D.left source.new) s) }
    ensures failed { IfErr result (λ s. s ≡ Status.ReadFault → Rose (D.faults source.old) (D.faults source.new)) }
{
    match read_whole(alloc, source, MOST_DOCUMENT_BYTES + 1) {
        Ok(bytes) => match read_document(alloc, &bytes) {
            Ok(document) => Ok(document),
            Err(ReadDoc::Fault(fault)) => Err(Status::DocRefused(fault)),
            Err(ReadDoc::NoMemory) => Err(Status::NoMemory),
        },
        Err(ReadError::Failed) => Err(Status::ReadFault),
        Err(ReadError::NoMemory) => Err(Status::NoMemory),
    }
}
