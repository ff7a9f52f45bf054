// A certificate that is verified while its bytes come.
ghost use Rattle.std.specs.Prelude.{◌≡◌, ◌≢◌, ◌≤◌, ◌++◌, [], ◌∷◌, length, All, None, Some, IfErr, IfOk, OnOk, List, ℕ};
ghost use Rattle.bp_base.specs.Limits.{most_document_bytes};
ghost use Rattle.bp_base.specs.Tree.{TreeValue};
ghost use Rattle.bp_certificate.specs.declared.certificate.CertificateHead.{CertificateHead as AnyHead};
ghost use Rattle.bp_certificate.specs.declared.certificate.Lemma.{Lemma as AnyLemma};
ghost use Rattle.bp_certificate.specs.Stages.{told_head};
ghost use Rattle.bp_document.specs.declared.fault.ReadDoc.{ReadDoc};
ghost use Rattle.bp_verify.specs.declared.fault.VerifyFault.{VerifyFault};
ghost use Rattle.bp_verify.specs.Judged.{HasJudged};
ghost use Rattle.bp_verify.specs.Intake.{AnswersText, EndsIntake, HasTakenIn, HasTold, IsAhead, IsScanned, IsUnderway, IsWhole, Takes, end_of};
ghost use Rattle.bp_verify.specs.Streams.{VerifiesText};

use crate::fault::{Verified, VerifyFault};
use crate::held::HeldLine;
use crate::judge::Judge;
use bp_base::{MOST_DOCUMENT_BYTES, NoMemory, TakesBytes, Tree};
use bp_certificate::{
    CertificateScanner, Lemma, law_of_long_certificate_lines, law_of_one_certificate,
};
use bp_document::{DocFault, DocKind, ReadDoc};
use bp_metric::Metric;
use bp_text::line;
use std::alloc::Global;

/// What is kept of a certificate while its bytes come: what its lines told, what is found of its lemmas, the line that has not ended yet,
/// and the first fault. The metric is on a square until the judge is opened.
#[derive(Drop)]
pub struct Intake {
    pub alloc: Global,
    pub scanner: CertificateScanner,
    pub metric: Metric,
    pub judge: Option<Judge>,
    pub held: HeldLine,
    pub fault: Option<DocFault>,
}

impl Intake {
    /// The intake before the first byte.
    pub fn open(alloc: Global, tree: &Tree) -> Result<Intake, NoMemory>
        ensures underway { IfOk result (λ p. IsUnderway p) }
        ensures nothing { IfOk result (λ p. HasTakenIn tree.now p []) }
    {
        let metric = Metric::of(alloc, tree)?;
        let scanner = CertificateScanner::open(alloc)?;
        Ok(Intake {
            alloc,
            scanner,
            metric,
            judge: None,
            held: HeldLine::empty(alloc),
            fault: None,
        })
    }

    // Takes a part of a line, and its LF where it is there.
    fn take_part(&mut self, alloc: Global, part: &[u8], ended: bool) -> Result<(), NoMemory>
        requires underway { IsUnderway self.old }
        requires free { All (λ b. b ≢ 10) part.now }
        ensures { OnOk result (Takes self.old self.new (part.now ++ end_of ended)) }
    {
        if self.fault.is_some() {
            return Ok(());
        }
        self.held.extend(part)?;
        if ended {
            self.end_line(alloc)?;
        }
        Ok(())
    }

    // The line that is held has its LF. A long line has the fault of its first bytes.
    fn end_line(&mut self, alloc: Global) -> Result<(), NoMemory>
        requires underway { IsUnderway self.old }
        requires whole { self.old.fault ≡ None }
        ensures { OnOk result (Takes self.old self.new (10 ∷ [])) }
    {
        law_of_long_certificate_lines();
        let scanned = self.scanner.feed(self.held.as_slice(), true);
        self.held.clear();
        match scanned {
            Ok(None) => Ok(()),
            Ok(Some(lemma)) => self.judge(alloc, lemma),
            Err(refused) => {
                let fault = fault_of(refused)?;
                self.fault = Some(fault);
                Ok(())
            }
        }
    }

    // Judges the lemma that the last line gave.
    fn judge(&mut self, alloc: Global, lemma: Lemma) -> Result<(), NoMemory>
        requires ahead { IsAhead self.old lemma }
        ensures judged { OnOk result ((T : TreeValue) (text : List ℕ) (ls : List AnyLemma) → IsScanned T self.old text (ls ++ lemma ∷ []) ls → IsScanned T self.new text (ls ++ lemma ∷ []) (ls ++ lemma ∷ [])) }
        ensures held { OnOk result (self.new.held ≡ self.old.held) }
        ensures fault { OnOk result (self.new.fault ≡ self.old.fault) }
    {
        let judge = self.next_judge(alloc)?;
        self.judge = Some(judge.feed(&lemma)?);
        Ok(())
    }

    // The judge of the lemmas so far, which is opened where there is none yet.
    fn next_judge(&mut self, alloc: Global) -> Result<Judge, NoMemory>
        requires told { HasTold self.old }
        ensures judge { IfOk result (λ j. (T : TreeValue) (text : List ℕ) (all : List AnyLemma) (ls : List AnyLemma) (H : AnyHead) → IsScanned T self.old text all ls → told_head self.old.scanner.stage ≡ Some H → HasJudged T H ls j) }
        ensures scanner { self.new.scanner ≡ self.old.scanner }
        ensures tree { self.new.metric.tree ≡ self.old.metric.tree }
        ensures held { self.new.held ≡ self.old.held }
        ensures fault { self.new.fault ≡ self.old.fault }
    {
        if let Some(judge) = self.judge.take() {
            return Ok(judge);
        }
        let Some(head) = self.scanner.head() else {
            unreachable!()
        };
        self.metric.set_sheet(head.sheet);
        Judge::open(alloc, &self.metric, head)
    }

    /// What the bytes taken, which are this many, are as a whole.
    pub fn finish(&mut self, alloc: Global, count: u64) -> Result<Verified, VerifyFault>
        requires underway { IsUnderway self.old }
        ensures answers { (T : TreeValue) (bytes : List ℕ) → length bytes ≡ count → HasTakenIn T self.old bytes → AnswersText T bytes result }
        ensures no_read { IfErr result (λ f. f ≡ VerifyFault.Read → ⊥) }
    {
        law_of_one_certificate();
        if count > MOST_DOCUMENT_BYTES {
            return Err(VerifyFault::Doc(DocFault {
                line: 0,
                kind: DocKind::TooLong,
            }));
        }
        if let Some(fault) = self.fault {
            return Err(VerifyFault::Doc(fault));
        }
        match self.end() {
            Ok(()) => Ok(self.answer(alloc)?),
            Err(refused) => {
                let fault = fault_of(refused)?;
                Err(VerifyFault::Doc(fault))
            }
        }
    }

    // The end of the input: a fault of the line that has no LF, or of the end behind whole lines.
    fn end(&mut self) -> Result<(), ReadDoc>
        requires underway { IsUnderway self.old }
        requires whole { self.old.fault ≡ None }
        ensures { EndsIntake self.old self.new result }
    {
        law_of_long_certificate_lines();
        let line = self.held.as_slice();
        if line.is_empty() {
            return match self.scanner.finish() {
                Ok(()) => Ok(()),
                Err(fault) => Err(ReadDoc::Fault(fault)),
            };
        }
        match self.scanner.feed(line, false) {
            Err(fault) => Err(fault),
            Ok(_) => unreachable!(),
        }
    }

    // The answer for a whole certificate.
    fn answer(&mut self, alloc: Global) -> Result<Verified, NoMemory>
        requires whole { (T : TreeValue) × (bytes : List ℕ) × IsWhole T self.old bytes }
        ensures { IfOk result (λ v. (T : TreeValue) (bytes : List ℕ) → IsWhole T self.old bytes → length bytes ≤ most_document_bytes → VerifiesText T bytes v) }
    {
        let judge = self.next_judge(alloc)?;
        match self.scanner.head() {
            None => unreachable!(),
            Some(head) => Ok(Verified {
                verdict: judge.verdict(head),
                side: head.side,
                bound: head.bound,
            }),
        }
    }
}

impl TakesBytes for Intake {
    ghost is_open = { λ p. IsUnderway p };

    ghost takes = { λ p bytes q. Takes p q bytes };

    ghost wants_memory = { Unit {0} };

    // After a fault the bytes are passed over.
    fn take(&mut self, bytes: &[u8]) -> Result<(), NoMemory> {
        let alloc = self.alloc;
        let mut at = 0;
        while let Some(here) = line(bytes, at) {
            let part = &bytes[here.from as usize..here.to as usize];
            self.take_part(alloc, part, here.ended)?;
            at = here.next;
        }
        Ok(())
    }
}

// The fault that is told, where memory didn't lack.
fn fault_of(refused: ReadDoc) -> Result<DocFault, NoMemory>
    ensures { IfOk result (λ f. refused ≡ ReadDoc.Fault f) }
{
    match refused {
        ReadDoc::Fault(fault) => Ok(fault),
        ReadDoc::NoMemory => Err(NoMemory),
    }
}
