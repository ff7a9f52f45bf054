// A certificate's text, judged against its own tree.
ghost use Rattle.std.specs.Prelude.{◌≡◌, ◌≤◌, List, ℕ, [], Err, length};
ghost use Rattle.bp_base.specs.Limits.{most_document_bytes};
ghost use Rattle.bp_base.specs.Tree.{TreeValue};
ghost use Rattle.bp_certificate.specs.declared.certificate.Lemma.{Lemma as AnyLemma};
ghost use Rattle.bp_certificate.specs.Faults.{IsTextOf};
ghost use Rattle.bp_certificate.specs.Places.{certificate_of};
ghost use Rattle.bp_certificate.specs.Scanning.{HasFed, IsUnbroken, Progress};
ghost use Rattle.bp_certificate.specs.Stages.{told_head};
ghost use Rattle.bp_verify.specs.Intake.{AnswersText, HasTakenIn, IsUnderway};
ghost use Rattle.bp_verify.specs.Own.{ReadsHead, ScansAll, VerifiesOwn};

use crate::fault::{Verified, VerifyFault};
use crate::intake::Intake;
use crate::verdict::Verdict;
use bp_base::{MOST_DOCUMENT_BYTES, NoMemory, TakesBytes, Tree};
use bp_certificate::{CertificateHead, CertificateScanner, law_of_one_certificate};
use bp_document::{DocFault, DocKind, ReadDoc};
use bp_text::line;
use std::alloc::Global;

/// What stands before a certificate's lemma lines, and the verdict on it against its own tree.
#[derive(Drop)]
pub struct Own {
    pub head: CertificateHead,
    pub verdict: Verdict,
}

/// Reads a certificate's text, and judges it against its own tree. The text is gone through twice, since its tree stands in it; beside it
/// the facts of the lemmas are held, not their hints.
pub fn verify_own(alloc: Global, bytes: &[u8]) -> Result<Own, VerifyFault>
    ensures { VerifiesOwn bytes.now result }
{
    match read_head(alloc, bytes) {
        Ok(head) => judge_own(alloc, head, bytes),
        Err(fault) => Err(fault),
    }
}

// The verdict on the certificate of this head.
fn judge_own(alloc: Global, head: CertificateHead, bytes: &[u8]) -> Result<Own, VerifyFault>
    requires { (ls : List AnyLemma) × IsTextOf bytes.now (certificate_of head ls) }
    ensures { VerifiesOwn bytes.now result }
{
    law_of_one_certificate();
    match verify_text(alloc, &head.tree, bytes) {
        Ok(verified) => Ok(Own {
            head,
            verdict: verified.verdict,
        }),
        Err(fault) => Err(fault),
    }
}

// The head of a certificate whose text is read to its end.
fn read_head(alloc: Global, bytes: &[u8]) -> Result<CertificateHead, VerifyFault>
    ensures { ReadsHead bytes.now result }
{
    law_of_one_certificate();
    if bytes.len() as u64 > MOST_DOCUMENT_BYTES {
        return Err(VerifyFault::Doc(DocFault {
            line: 0,
            kind: DocKind::TooLong,
        }));
    }
    match CertificateScanner::open(alloc) {
        Ok(scanner) => head_by(scanner, bytes),
        Err(NoMemory) => Err(VerifyFault::NoMemory),
    }
}

// The head that a scanner tells which was fed nothing yet.
fn head_by(mut scanner: CertificateScanner, bytes: &[u8]) -> Result<CertificateHead, VerifyFault>
    requires whole { IsUnbroken scanner }
    requires nothing { HasFed scanner [] [] }
    requires short { length bytes.now ≤ most_document_bytes }
    ensures { ReadsHead bytes.now result }
{
    let scanned = scan(&mut scanner, bytes);
    let head = scanner.into_head();
    head_of(bytes, scanned, head)
}

// The head of a scanner that was fed all bytes, or their fault.
fn head_of(
    _bytes: &[u8],
    scanned: Result<(), ReadDoc>,
    head: Option<CertificateHead>,
) -> Result<CertificateHead, VerifyFault>
    requires scans { (P : Progress) × ScansAll _bytes.now P scanned × (head ≡ told_head P.stage) }
    requires short { length _bytes.now ≤ most_document_bytes }
    ensures { ReadsHead _bytes.now result }
{
    match scanned {
        Ok(()) => match head {
            Some(head) => Ok(head),
            None => unreachable!(),
        },
        Err(error) => refused(_bytes, error),
    }
}

// The answer to bytes that are no certificate's text.
fn refused(_bytes: &[u8], error: ReadDoc) -> Result<CertificateHead, VerifyFault>
    requires { (P : Progress) × ScansAll _bytes.now P (Err error) }
    ensures { ReadsHead _bytes.now result }
{
    law_of_one_certificate();
    match error {
        ReadDoc::Fault(fault) => Err(VerifyFault::Doc(fault)),
        ReadDoc::NoMemory => Err(VerifyFault::NoMemory),
    }
}

// Feeds all lines and the end of input.
fn scan(scanner: &mut CertificateScanner, bytes: &[u8]) -> Result<(), ReadDoc>
    requires whole { IsUnbroken scanner.old }
    requires nothing { HasFed scanner.old [] [] }
    requires short { length bytes.now ≤ most_document_bytes }
    ensures { ScansAll bytes.now scanner.new result }
{
    let mut at = 0;
    while let Some(here) = line(bytes, at) {
        let part = &bytes[here.from as usize..here.to as usize];
        match scanner.feed(part, here.ended) {
            Ok(_) => {}
            Err(error) => return Err(error),
        }
        at = here.next;
    }
    match scanner.finish() {
        Ok(()) => Ok(()),
        Err(fault) => Err(ReadDoc::Fault(fault)),
    }
}

// The verdict on a text against a tree.
fn verify_text(alloc: Global, tree: &Tree, bytes: &[u8]) -> Result<Verified, VerifyFault>
    ensures { AnswersText tree.now bytes.now result }
{
    let mut intake = match Intake::open(alloc, tree) {
        Ok(intake) => intake,
        Err(NoMemory) => return Err(VerifyFault::NoMemory),
    };
    let verified = verify_bytes(alloc, &mut intake, bytes);
    // Dropped by a call: the proof of a drop in place goes through all that an intake holds, branch by branch.
    drop(intake);
    verified
}

// The verdict on these bytes, by an intake that has taken nothing.
fn verify_bytes(alloc: Global, intake: &mut Intake, bytes: &[u8]) -> Result<Verified, VerifyFault>
    requires { IsUnderway intake.old }
    ensures { (T : TreeValue) → HasTakenIn T intake.old [] → AnswersText T bytes.now result }
{
    match intake.take(bytes) {
        Ok(()) => intake.finish(alloc, bytes.len() as u64),
        Err(NoMemory) => Err(VerifyFault::NoMemory),
    }
}
