// `revise`: an old design for new lengths.
ghost use Rattle.std.specs.Prelude.{◌≡◌, ◌⊎◌, IfOk, IfErr};
ghost use Rattle.bp_base.specs.Causes.{Rose};
ghost use Rattle.bp_base.specs.Tree.{TreeValue};
ghost use Rattle.bp_tree.specs.declared.fault.TreeFault.{TreeFault};
ghost use Rattle.bp_document.specs.Ranges.{IsDocument};
ghost use Rattle.bp_check.specs.Checks.{Checks};
ghost use Rattle.bp_engine.specs.Documents.{no_text};
ghost use Rattle.bp_engine.specs.Outcomes.{AnswersDoc, HasNoRevision, IsFinal, ReadsNoRevision};
ghost use Rattle.bp_engine.specs.Reading.{ReadsTree};
ghost use Rattle.bp_engine.specs.Revising.{IsRevisable, IsRevision, RevisesAgainst, RevisesBoth};
ghost use Rattle.bp_engine.specs.Run.{IsRevisedToEnd, IsSilent};
ghost use Rattle.bp_engine.specs.Texts.{MayWrite};

use crate::Status;
use crate::answering::{Answer, write_answered};
use crate::drawing::no_text;
use crate::given::{given_document, given_tree};
use crate::outcome::status_of;
use crate::text::document_text;
use bp_base::{NoMemory, Sink, Source, Tree};
use bp_check::{Reason, Verdict, check, checks_without_reason, one_reason};
use bp_document::{Document, law_of_one_answer as one_document};
use bp_revise::{are_of_one_shape, revise};
use bp_tree::law_of_one_answer as one_tree;
use std::alloc::Global;

// Reads the tree, then the old document, and writes its revision for the tree, or why the old document is wrong. Where the tree is refused
// no document is read.
pub fn revise_both<T: Source, D: Source, K: Sink>(
    alloc: Global,
    budget: u64,
    tree: &mut T,
    doc: &mut D,
    out: &mut K,
) -> Status
    ensures revises { RevisesBoth budget (T.left tree.old) (T.left tree.new) (D.left doc.old) (D.left doc.new) (K.held out.old) (K.held out.new) result }
    ensures complete { (result ≡ Status.ReadFault → ⊥) → (result ≡ Status.WriteFault → ⊥) → IsRevisedToEnd (T.left tree.old) (D.left doc.old) budget result }
    ensures order { (doc.new ≡ doc.old) ⊎ ((t : TreeValue) × ReadsTree (T.left tree.old) (T.left tree.new) t) }
    ensures unread { (fault : TreeFault) → result ≡ Status.TreeRefused fault → doc.new ≡ doc.old }
    ensures unwritten { (MayWrite result → ⊥) → out.new ≡ out.old }
    ensures loud { IsSilent result → ⊥ }
    ensures read { result ≡ Status.ReadFault → (Rose (T.faults tree.old) (T.faults tree.new) × (doc.new ≡ doc.old)) ⊎ ((t : TreeValue) × ReadsTree (T.left tree.old) (T.left tree.new) t × Rose (D.faults doc.old) (D.faults doc.new)) }
    ensures write { result ≡ Status.WriteFault → Rose (K.faults out.old) (K.faults out.new) }
{
    one_tree();
    one_document();
    checks_without_reason();
    one_reason();
    match given_tree(alloc, tree) {
        Ok(tree) => revise_against(alloc, budget, &tree, doc, out),
        Err(status) => status,
    }
}

fn revise_against<D: Source, K: Sink>(
    alloc: Global,
    budget: u64,
    tree: &Tree,
    doc: &mut D,
    out: &mut K,
) -> Status
    ensures revises { RevisesAgainst tree.now budget (D.left doc.old) (D.left doc.new) (K.held out.old) (K.held out.new) result }
    ensures no_tree { (fault : TreeFault) → result ≡ Status.TreeRefused fault → ⊥ }
    ensures unwritten { (MayWrite result → ⊥) → out.new ≡ out.old }
    ensures loud { IsSilent result → ⊥ }
    ensures read { result ≡ Status.ReadFault → Rose (D.faults doc.old) (D.faults doc.new) }
    ensures write { result ≡ Status.WriteFault → Rose (K.faults out.old) (K.faults out.new) }
{
    let answered = revised_from(alloc, budget, tree, doc);
    write_answered(answered, out)
}

// What answers the document, or the status where nothing does.
fn revised_from<D: Source>(
    alloc: Global,
    budget: u64,
    tree: &Tree,
    doc: &mut D,
) -> Result<Answer, Status>
    ensures answers { IfOk result (λ a. AnswersDoc (IsRevision tree.now budget) (D.left doc.old) (D.left doc.new) a.status a.text.items) }
    ensures ends { IfOk result (λ a. IsFinal a.status) }
    ensures none { IfErr result (λ s. ReadsNoRevision tree.now (D.left doc.old) (D.left doc.new) s) }
    ensures failed { IfErr result (λ s. s ≡ Status.ReadFault → Rose (D.faults doc.old) (D.faults doc.new)) }
{
    match given_document(alloc, doc) {
        Ok(old) => answer_to(alloc, budget, tree, old),
        Err(status) => Err(status),
    }
}

fn answer_to(alloc: Global, budget: u64, tree: &Tree, old: Document) -> Result<Answer, Status>
    requires { IsDocument old }
    ensures answer { IfOk result (λ a. IsRevision tree.now budget old a.status a.text.items) }
    ensures ends { IfOk result (λ a. IsFinal a.status) }
    ensures none { IfErr result (λ s. HasNoRevision tree.now old s) }
{
    match check(alloc, &old.tree, &old) {
        Ok(Verdict::Yes) => revised_in_shape(alloc, budget, tree, old),
        Ok(Verdict::No(reason)) => wrong(alloc, reason),
        Err(NoMemory) => Err(Status::NoMemory),
    }
}

// The answer to an old document that doesn't check.
fn wrong(alloc: Global, reason: Reason) -> Result<Answer, Status>
    ensures answer { IfOk result (λ a. (a.status ≡ Status.No reason) × (a.text.items ≡ no_text reason)) }
    ensures none { IfErr result (λ s. s ≡ Status.NoMemory) }
{
    match no_text(alloc, reason) {
        Ok(text) => Ok(Answer {
            status: Status::No(reason),
            text,
        }),
        Err(NoMemory) => Err(Status::NoMemory),
    }
}

// The answer to an old document that checks.
fn revised_in_shape(
    alloc: Global,
    budget: u64,
    tree: &Tree,
    old: Document,
) -> Result<Answer, Status>
    requires ranges { IsDocument old }
    requires checks { Checks old.tree old }
    ensures answer { IfOk result (λ a. IsRevision tree.now budget old a.status a.text.items) }
    ensures ends { IfOk result (λ a. IsFinal a.status) }
    ensures none { IfErr result (λ s. HasNoRevision tree.now old s) }
{
    if !are_of_one_shape(&old.tree, tree) {
        return Err(Status::ShapeDiffers);
    }
    match revision(alloc, budget, tree, old) {
        Ok(answer) => Ok(answer),
        Err(NoMemory) => Err(Status::NoMemory),
    }
}

fn revision(alloc: Global, budget: u64, tree: &Tree, old: Document) -> Result<Answer, NoMemory>
    requires ranges { IsDocument old }
    requires revisable { IsRevisable tree.now old }
    ensures answer { IfOk result (λ a. IsRevision tree.now budget old a.status a.text.items) }
    ensures ends { IfOk result (λ a. IsFinal a.status) }
{
    let document = revise(alloc, tree, old, budget)?;
    let status = status_of(document.side, document.bound);
    let text = document_text(alloc, &document)?;
    Ok(Answer { status, text })
}
