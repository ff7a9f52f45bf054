// `check`: whether a document is a right design of a tree.
ghost use Rattle.std.specs.Prelude.{◌≡◌, ◌≤◌, ◌⊎◌, IfOk, IfErr};
ghost use Rattle.bp_base.specs.Causes.{Rose};
ghost use Rattle.bp_base.specs.Tree.{TreeValue};
ghost use Rattle.bp_tree.specs.declared.fault.TreeFault.{TreeFault};
ghost use Rattle.bp_engine.specs.Checking.{ChecksBoth, IsChecked, yes_text};
ghost use Rattle.bp_engine.specs.Documents.{Handles};
ghost use Rattle.bp_engine.specs.Outcomes.{AnswersDoc, IsAnswerTo, IsFinal, status_of};
ghost use Rattle.bp_engine.specs.Reading.{ReadsNoDoc, ReadsTree};
ghost use Rattle.bp_engine.specs.Run.{IsSilent};
ghost use Rattle.bp_engine.specs.Texts.{MayWrite};

use crate::Status;
use crate::answering::{Answer, write_answered};
use crate::drawing::{add_numbered, no_text};
use crate::given::given_tree;
use bp_base::{NoMemory, Sink, Source, Tree};
use bp_check::{CheckFault, Streamed, Verdict, check_source};
use std::alloc::Global;

// Reads the tree, then the document in one pass, and writes whether it checks. Where the tree is refused no document is read.
pub fn check_both<T: Source, D: Source, K: Sink>(
    alloc: Global,
    tree: &mut T,
    doc: &mut D,
    out: &mut K,
) -> Status
    ensures checks { ChecksBoth (T.left tree.old) (T.left tree.new) (D.left doc.old) (D.left doc.new) (K.held out.old) (K.held out.new) result }
    ensures order { (doc.new ≡ doc.old) ⊎ ((t : TreeValue) × ReadsTree (T.left tree.old) (T.left tree.new) t) }
    ensures unread { (fault : TreeFault) → result ≡ Status.TreeRefused fault → doc.new ≡ doc.old }
    ensures unwritten { (MayWrite result → ⊥) → out.new ≡ out.old }
    ensures loud { IsSilent result → ⊥ }
    ensures read { result ≡ Status.ReadFault → (Rose (T.faults tree.old) (T.faults tree.new) × (doc.new ≡ doc.old)) ⊎ ((t : TreeValue) × ReadsTree (T.left tree.old) (T.left tree.new) t × Rose (D.faults doc.old) (D.faults doc.new)) }
    ensures write { result ≡ Status.WriteFault → Rose (K.faults out.old) (K.faults out.new) }
{
    match given_tree(alloc, tree) {
        Ok(tree) => check_against(alloc, &tree, doc, out),
        Err(status) => status,
    }
}

fn check_against<D: Source, K: Sink>(alloc: Global, tree: &Tree, doc: &mut D, out: &mut K) -> Status
    ensures checks { Handles (IsChecked tree.now) (D.left doc.old) (D.left doc.new) (K.held out.old) (K.held out.new) result }
    ensures no_tree { (fault : TreeFault) → result ≡ Status.TreeRefused fault → ⊥ }
    ensures unwritten { (MayWrite result → ⊥) → out.new ≡ out.old }
    ensures loud { IsSilent result → ⊥ }
    ensures read { result ≡ Status.ReadFault → Rose (D.faults doc.old) (D.faults doc.new) }
    ensures write { result ≡ Status.WriteFault → Rose (K.faults out.old) (K.faults out.new) }
{
    let answered = checked(alloc, tree, doc);
    write_answered(answered, out)
}

// What answers the document, or the status where none comes.
fn checked<D: Source>(alloc: Global, tree: &Tree, doc: &mut D) -> Result<Answer, Status>
    ensures answers { IfOk result (λ a. AnswersDoc (IsChecked tree.now) (D.left doc.old) (D.left doc.new) a.status a.text.items) }
    ensures ends { IfOk result (λ a. IsFinal a.status) }
    ensures none { IfErr result (λ s. ReadsNoDoc (D.left doc.old) (D.left doc.new) s) }
    ensures failed { IfErr result (λ s. s ≡ Status.ReadFault → Rose (D.faults doc.old) (D.faults doc.new)) }
{
    match check_source(alloc, tree, doc) {
        Ok(streamed) => match answer_of(alloc, streamed) {
            Ok(answer) => Ok(answer),
            Err(NoMemory) => Err(Status::NoMemory),
        },
        Err(fault) => Err(status_of(fault)),
    }
}

fn status_of(fault: CheckFault) -> Status
    ensures { result ≡ status_of fault }
{
    match fault {
        CheckFault::Doc(fault) => Status::DocRefused(fault),
        CheckFault::Read => Status::ReadFault,
        CheckFault::NoMemory => Status::NoMemory,
    }
}

fn answer_of(alloc: Global, streamed: Streamed) -> Result<Answer, NoMemory>
    ensures { IfOk result (λ a. IsAnswerTo streamed.side streamed.bound streamed.verdict a.status a.text.items) }
{
    match streamed.verdict {
        Verdict::Yes => {
            let text = yes_text(alloc, streamed.side, streamed.bound)?;
            Ok(Answer {
                status: Status::Done,
                text,
            })
        }
        Verdict::No(reason) => {
            let text = no_text(alloc, reason)?;
            Ok(Answer {
                status: Status::No(reason),
                text,
            })
        }
    }
}

#[tactic(auto, unfolding(crate::specs::Checking::yes_text))]
pub fn yes_text(alloc: Global, side: u64, bound: u64) -> Result<Vec<u8>, NoMemory>
    ensures { IfOk result (λ v. v.items ≡ yes_text side bound) }
{
    let mut text = Vec::new(alloc);
    add_numbered(&mut text, b"yes side ", side)?;
    add_numbered(&mut text, b" bound ", bound)?;
    text.extend_from_slice(b"\n")?;
    Ok(text)
}
