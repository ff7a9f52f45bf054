// `rewrite`: the text of a document in version 2.
ghost use Rattle.std.specs.Prelude.{◌≡◌, ◌≤◌, IfOk, IfErr};
ghost use Rattle.bp_base.specs.Causes.{Rose};
ghost use Rattle.bp_document.specs.Ranges.{IsDocument};
ghost use Rattle.bp_engine.specs.Documents.{IsRewritten, Rewrites};
ghost use Rattle.bp_engine.specs.Outcomes.{AnswersDoc, IsFinal};
ghost use Rattle.bp_engine.specs.Reading.{ReadsNoDoc};
ghost use Rattle.bp_engine.specs.Run.{IsSilent};
ghost use Rattle.bp_engine.specs.Texts.{MayWrite};

use crate::Status;
use crate::answering::{Answer, write_answered};
use crate::given::given_document;
use crate::text::document_text;
use bp_base::{NoMemory, Sink, Source};
use bp_document::Document;
use std::alloc::Global;

// Reads the document, and writes its text. It doesn't check it.
pub fn rewrite<D: Source, K: Sink>(alloc: Global, source: &mut D, out: &mut K) -> Status
    ensures rewrites { Rewrites (D.left source.old) (D.left source.new) (K.held out.old) (K.held out.new) result }
    ensures unwritten { (MayWrite result → ⊥) → out.new ≡ out.old }
    ensures loud { IsSilent result → ⊥ }
    ensures read { result ≡ Status.ReadFault → Rose (D.faults source.old) (D.faults source.new) }
    ensures write { result ≡ Status.WriteFault → Rose (K.faults out.old) (K.faults out.new) }
{
    let answered = rewritten_from(alloc, source);
    write_answered(answered, out)
}

fn rewritten_from<D: Source>(alloc: Global, source: &mut D) -> Result<Answer, Status>
    ensures answers { IfOk result (λ a. AnswersDoc IsRewritten (D.left source.old) (D.left source.new) a.status a.text.items) }
    ensures ends { IfOk result (λ a. IsFinal a.status) }
    ensures none { IfErr result (λ s. ReadsNoDoc (D.left source.old) (D.left source.new) s) }
    ensures failed { IfErr result (λ s. s ≡ Status.ReadFault → Rose (D.faults source.old) (D.faults source.new)) }
{
    let document = given_document(alloc, source)?;
    match rewritten(alloc, &document) {
        Ok(answer) => Ok(answer),
        Err(NoMemory) => Err(Status::NoMemory),
    }
}

fn rewritten(alloc: Global, document: &Document) -> Result<Answer, NoMemory>
    requires { IsDocument document.now }
    ensures answer { IfOk result (λ a. IsRewritten document.now a.status a.text.items) }
    ensures ends { IfOk result (λ a. IsFinal a.status) }
{
    let text = document_text(alloc, document)?;
    Ok(Answer {
        status: Status::Done,
        text,
    })
}
