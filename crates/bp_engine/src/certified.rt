// Certificates that are drawn.
ghost use Rattle.std.specs.Prelude.{◌≡◌, ◌≤◌, List, ℕ, IfOk, IfErr};
ghost use Rattle.bp_base.specs.declared.point.Sheet.TheVariants.{Square as square};
ghost use Rattle.bp_base.specs.Limits.{most_number};
ghost use Rattle.bp_certificate.specs.Places.{certificate_of};
ghost use Rattle.bp_metric.specs.Valid.{Valid};
ghost use Rattle.bp_verify.specs.Own.{IsOwn};
ghost use Rattle.bp_verify.specs.Streams.{IsRefused as IsRefusedCertificate};
ghost use Rattle.bp_engine.specs.Documents.{IsDrawing};
ghost use Rattle.bp_engine.specs.Drawings.{AnswersCertificateBytes, IsCertificateDrawn, Refuses};
ghost use Rattle.bp_engine.specs.Outcomes.{IsFinal};

use crate::Status;
use crate::answering::Answer;
use crate::drawing::{Drawing, drawing_text, refused};
use crate::verifying::{status_of, uncertified_text};
use bp_base::{NoMemory, Sheet};
use bp_certificate::CertificateHead;
use bp_check::Reason;
use bp_document::Document;
use bp_verify::{Own, Verdict, verify_own};
use std::alloc::Global;

// What answers the certificate of a text, or the status where it is none's.
pub fn certificate_drawn(alloc: Global, drawing: Drawing, bytes: &[u8]) -> Result<Answer, Status>
    ensures answers { IfOk result (λ a. AnswersCertificateBytes drawing bytes.now a.status a.text.items) }
    ensures ends { IfOk result (λ a. IsFinal a.status) }
    ensures none { IfErr result (λ s. Refuses IsRefusedCertificate bytes.now s) }
{
    match verify_own(alloc, bytes) {
        Ok(own) => match own_drawn(alloc, drawing, own) {
            Ok(answer) => Ok(answer),
            Err(NoMemory) => Err(Status::NoMemory),
        },
        Err(fault) => Err(status_of(fault)),
    }
}

// A strip has no drawing; on a square the certificate's own tree is what it is to be right of.
fn own_drawn(alloc: Global, drawing: Drawing, own: Own) -> Result<Answer, NoMemory>
    requires { (bytes : List ℕ) × IsOwn bytes own }
    ensures answer { IfOk result (λ a. (bytes : List ℕ) (o : IsOwn bytes own) → IsCertificateDrawn drawing (certificate_of own.head o.lemmas) a.status a.text.items) }
    ensures ends { IfOk result (λ a. IsFinal a.status) }
{
    match own.head.sheet {
        Sheet::Strip { .. } => refused(alloc, drawing, Reason::StripSheet),
        Sheet::Square => own_drawn_on_square(alloc, drawing, own),
    }
}

fn own_drawn_on_square(alloc: Global, drawing: Drawing, own: Own) -> Result<Answer, NoMemory>
    requires own { (bytes : List ℕ) × IsOwn bytes own }
    requires square { own.head.sheet ≡ square }
    ensures answer { IfOk result (λ a. (bytes : List ℕ) (o : IsOwn bytes own) → IsCertificateDrawn drawing (certificate_of own.head o.lemmas) a.status a.text.items) }
    ensures ends { IfOk result (λ a. IsFinal a.status) }
{
    match own.verdict {
        Verdict::Yes => {
            let text = head_text(alloc, drawing, own.head)?;
            Ok(Answer {
                status: Status::Done,
                text,
            })
        }
        Verdict::No(reason) => {
            let told = uncertified_text(alloc, reason)?;
            Ok(Answer {
                status: Status::NoCertificate(reason),
                text: told,
            })
        }
    }
}

// The drawing of a right certificate, of which the lemmas are not needed any more.
fn head_text(alloc: Global, drawing: Drawing, head: CertificateHead) -> Result<Vec<u8>, NoMemory>
    requires side { head.side ≤ most_number }
    requires valid { Valid head.tree square 1 head.side head.points }
    ensures { IfOk result (λ v. IsDrawing drawing head.tree head.side head.bound head.points v.items) }
{
    let document = Document {
        tree: head.tree,
        side: head.side,
        bound: head.bound,
        points: head.points,
        floor: head.floor,
        proof: None,
        sheet: head.sheet,
    };
    drawing_text(alloc, drawing, document)
}
