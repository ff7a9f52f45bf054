// `verify`: whether a certificate is a right design of a tree.
ghost use Rattle.std.specs.Prelude.{◌≡◌, ◌≤◌, ◌⊎◌, ◌++◌, IfOk, IfErr, OnOk};
ghost use Rattle.bp_base.specs.Causes.{Rose};
ghost use Rattle.bp_base.specs.Tree.{TreeValue};
ghost use Rattle.bp_tree.specs.declared.fault.TreeFault.{TreeFault};
ghost use Rattle.bp_engine.specs.Outcomes.{AnswersCertificate, IsFinal, IsVerifiedBy, status_of_fault};
ghost use Rattle.bp_engine.specs.Reading.{ReadsTree};
ghost use Rattle.bp_engine.specs.Run.{IsSilent};
ghost use Rattle.bp_engine.specs.Texts.{MayWrite};
ghost use Rattle.bp_engine.specs.Verifying.{ReadsNoCertificate, VerifiesAgainst, VerifiesBoth, flaw_text, uncertified_text};

use crate::Status;
use crate::answering::{Answer, write_answered};
use crate::checking::yes_text;
use crate::drawing::{add, add_numbered};
use crate::given::given_tree;
use bp_base::{NoMemory, Sink, Source, Tree};
use bp_verify::{Reason, Verdict, Verified, VerifyFault, verify_source};
use std::alloc::Global;

// Reads the tree, then the certificate in one pass, and writes whether it is right. Where the tree is refused no certificate is read.
pub fn verify_both<T: Source, D: Source, K: Sink>(
    alloc: Global,
    tree: &mut T,
    doc: &mut D,
    out: &mut K,
) -> Status
    ensures verifies { VerifiesBoth (T.left tree.old) (T.left tree.new) (D.left doc.old) (D.left doc.new) (K.held out.old) (K.held out.new) result }
    ensures order { (doc.new ≡ doc.old) ⊎ ((t : TreeValue) × ReadsTree (T.left tree.old) (T.left tree.new) t) }
    ensures unread { (fault : TreeFault) → result ≡ Status.TreeRefused fault → doc.new ≡ doc.old }
    ensures unwritten { (MayWrite result → ⊥) → out.new ≡ out.old }
    ensures loud { IsSilent result → ⊥ }
    ensures read { result ≡ Status.ReadFault → (Rose (T.faults tree.old) (T.faults tree.new) × (doc.new ≡ doc.old)) ⊎ ((t : TreeValue) × ReadsTree (T.left tree.old) (T.left tree.new) t × Rose (D.faults doc.old) (D.faults doc.new)) }
    ensures write { result ≡ Status.WriteFault → Rose (K.faults out.old) (K.faults out.new) }
{
    match given_tree(alloc, tree) {
        Ok(tree) => verify_against(alloc, &tree, doc, out),
        Err(status) => status,
    }
}

fn verify_against<D: Source, K: Sink>(
    alloc: Global,
    tree: &Tree,
    doc: &mut D,
    out: &mut K,
) -> Status
    ensures verifies { VerifiesAgainst tree.now (D.left doc.old) (D.left doc.new) (K.held out.old) (K.held out.new) result }
    ensures no_tree { (fault : TreeFault) → result ≡ Status.TreeRefused fault → ⊥ }
    ensures unwritten { (MayWrite result → ⊥) → out.new ≡ out.old }
    ensures loud { IsSilent result → ⊥ }
    ensures read { result ≡ Status.ReadFault → Rose (D.faults doc.old) (D.faults doc.new) }
    ensures write { result ≡ Status.WriteFault → Rose (K.faults out.old) (K.faults out.new) }
{
    let answered = verified(alloc, tree, doc);
    write_answered(answered, out)
}

// What answers the certificate, or the status where none comes.
fn verified<D: Source>(alloc: Global, tree: &Tree, doc: &mut D) -> Result<Answer, Status>
    ensures answers { IfOk result (λ a. AnswersCertificate tree.now (D.left doc.old) (D.left doc.new) a.status a.text.items) }
    ensures ends { IfOk result (λ a. IsFinal a.status) }
    ensures none { IfErr result (λ s. ReadsNoCertificate (D.left doc.old) (D.left doc.new) s) }
    ensures failed { IfErr result (λ s. s ≡ Status.ReadFault → Rose (D.faults doc.old) (D.faults doc.new)) }
{
    match verify_source(alloc, tree, doc) {
        Ok(verified) => match answer_of(alloc, verified) {
            Ok(answer) => Ok(answer),
            Err(NoMemory) => Err(Status::NoMemory),
        },
        Err(fault) => Err(status_of(fault)),
    }
}

pub fn status_of(fault: VerifyFault) -> Status
    ensures { result ≡ status_of_fault fault }
{
    match fault {
        VerifyFault::Doc(fault) => Status::DocRefused(fault),
        VerifyFault::Read => Status::ReadFault,
        VerifyFault::NoMemory => Status::NoMemory,
    }
}

fn answer_of(alloc: Global, verified: Verified) -> Result<Answer, NoMemory>
    ensures { IfOk result (λ a. IsVerifiedBy verified.side verified.bound verified.verdict a.status a.text.items) }
{
    match verified.verdict {
        Verdict::Yes => {
            let text = yes_text(alloc, verified.side, verified.bound)?;
            Ok(Answer {
                status: Status::Done,
                text,
            })
        }
        Verdict::No(reason) => {
            let text = uncertified_text(alloc, reason)?;
            Ok(Answer {
                status: Status::NoCertificate(reason),
                text,
            })
        }
    }
}

#[tactic(auto, unfolding(crate::specs::Verifying::uncertified_text))]
pub fn uncertified_text(alloc: Global, reason: Reason) -> Result<Vec<u8>, NoMemory>
    ensures { IfOk result (λ v. v.items ≡ uncertified_text reason) }
{
    let mut text = Vec::new(alloc);
    text.extend_from_slice(b"no ")?;
    add_flaw(&mut text, reason)?;
    text.extend_from_slice(b"\n")?;
    Ok(text)
}

fn add_flaw(text: &mut Vec<u8>, reason: Reason) -> Result<(), NoMemory>
    ensures { OnOk result (text.new.items ≡ text.old.items ++ flaw_text reason) }
{
    match reason {
        Reason::TreeDiffers => add(text, b"TreeDiffers"),
        Reason::Outside { i } => add_numbered(text, b"Outside ", i),
        Reason::TooNear { i, j } => {
            add_numbered(text, b"TooNear ", i)?;
            add_numbered(text, b" ", j)
        }
        Reason::BadFloor => add(text, b"BadFloor"),
        Reason::BadCorner => add(text, b"BadCorner"),
        Reason::BadSwap { number } => add_numbered(text, b"BadSwap ", number),
        Reason::BadLemma { number } => add_numbered(text, b"BadLemma ", number),
        Reason::BoundNotShown => add(text, b"BoundNotShown"),
    }
}
