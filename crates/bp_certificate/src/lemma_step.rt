// Lemma lines and the end.
ghost use Rattle.bp_certificate.specs.Stages.{IsBehindLemma, Steps};
ghost use Rattle.bp_certificate.specs.declared.stage.Stage.{Stage};

use crate::CertificateHead;
use crate::lemma_form::read_lemma;
use crate::opening_step::on;
use crate::stage::{Halt, Stage, Step};
use bp_base::NoMemory;
use bp_document::DocKind;
use std::alloc::Global;

pub fn feed_lemma(
    alloc: Global,
    head: CertificateHead,
    left: u64,
    bytes: &[u8],
) -> Result<Step, Halt>
    ensures { Steps (Stage.Lemmas head left) bytes.now result }
{
    match read_lemma(alloc, bytes) {
        Err(NoMemory) => Err(Halt::NoMemory),
        Ok(None) => Err(Halt::Fault(DocKind::BadForm)),
        Ok(Some(lemma)) => {
            let stage = at_lemmas(head, left);
            let lemma = Some(lemma);
            Ok(Step { stage, lemma })
        }
    }
}

// The stage behind a lemma where so many were left.
fn at_lemmas(head: CertificateHead, left: u64) -> Stage
    ensures { IsBehindLemma head left result }
{
    if left > 1 {
        Stage::Lemmas {
            head,
            left: left - 1,
        }
    } else {
        Stage::End { head }
    }
}

pub fn feed_end(head: CertificateHead, bytes: &[u8]) -> Result<Step, Halt>
    ensures { Steps (Stage.End head) bytes.now result }
{
    if bytes == b"end".as_slice() {
        on(Stage::Behind { head })
    } else {
        Err(Halt::Fault(DocKind::BadForm))
    }
}
