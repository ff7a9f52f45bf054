// Certificates line by line.
ghost use Rattle.std.specs.Prelude.{◌≡◌, ◌≢◌, [], true, All, IfOk, MatchOption, None, Some};
ghost use Rattle.bp_certificate.specs.Scanning.{FeedsLine, FinishesText, HasFed, HasTold, IsUnbroken};
ghost use Rattle.bp_certificate.specs.Stages.{told_head};

use crate::stage::{Halt, Stage};
use crate::step::take_line;
use crate::{CertificateHead, Lemma};
use bp_base::NoMemory;
use bp_document::{DocFault, DocKind, Memory, ReadDoc, Room};
use bp_tree::Grower;
use std::alloc::Global;
use std::marker::Model;
use std::mem;

/// A certificate that is read line by line, without holding its lemmas. Contracts see how many lines it was fed
/// without a fault and what they told; `HasFed` says which text and which lemmas these were.
#[derive(Drop)]
pub struct CertificateScanner {
    alloc: Global,
    lines: u64,
    stage: Stage,
}

impl Model for CertificateScanner {
    ghost use Rattle.bp_certificate.specs.Scanning.{Progress};
    ghost use Rattle.bp_certificate.specs.Stages.{IsWithin};

    ghost Value = { Progress };

    ghost view = { λ s. record { lines = s.lines; stage = s.stage } };

    ghost invariant = { λ s. IsWithin s.stage s.lines };
}

impl CertificateScanner {
    /// A scanner that was fed nothing.
    pub fn open(alloc: Global) -> Result<CertificateScanner, NoMemory>
        ensures whole { IfOk result (λ s. IsUnbroken s) }
        ensures nothing { IfOk result (λ s. HasFed s [] []) }
    {
        let grower = Grower::new(alloc)?;
        let points = Room::new(alloc)?;
        let leaves = Room::new(alloc)?;
        let memory = Memory {
            grower,
            points,
            leaves,
        };
        Ok(CertificateScanner {
            alloc,
            lines: 0,
            stage: Stage::Version { memory },
        })
    }

    /// Takes the next line, without its LF; `ended` says whether the LF was there. Some is the lemma of a lemma line.
    /// A fault is the first that the line has, with its number; nothing may be fed after it, nor after NoMemory.
    pub fn feed(&mut self, line: &[u8], ended: bool) -> Result<Option<Lemma>, ReadDoc>
        requires whole { IsUnbroken self.old }
        requires free { All (λ b. b ≢ 10) line.now }
        requires some { line.now ≡ [] → ended ≡ true }
        ensures { FeedsLine self.old line.now ended self.new result }
    {
        let number = self.lines + 1;
        let stage = mem::replace(&mut self.stage, Stage::Broken);
        match take_line(self.alloc, stage, line, ended) {
            Ok(step) => {
                // Dropped by a call, for the proof's sake as in `take_line`.
                drop(mem::replace(&mut self.stage, step.stage));
                self.lines = number;
                Ok(step.lemma)
            }
            Err(Halt::Fault(kind)) => Err(ReadDoc::Fault(DocFault { line: number, kind })),
            Err(Halt::NoMemory) => Err(ReadDoc::NoMemory),
        }
    }

    /// What the lines fed tell of the certificate before its lemma lines. None exactly before the last line of these was fed,
    /// and behind a fault.
    pub fn head(&self) -> Option<&CertificateHead>
        ensures head { MatchOption result (told_head self.now.stage ≡ None) (λ h. told_head self.now.stage ≡ Some h.now) }
        ensures told { HasTold self.now }
    {
        match &self.stage {
            Stage::Lemmas { head, .. } => Some(head),
            Stage::End { head } => Some(head),
            Stage::Behind { head } => Some(head),
            _ => None,
        }
    }

    /// The same, to keep.
    pub fn into_head(self) -> Option<CertificateHead>
        ensures { MatchOption result (told_head self.stage ≡ None) (λ h. told_head self.stage ≡ Some h) }
    {
        match self.stage {
            Stage::Lemmas { head, .. } => Some(head),
            Stage::End { head } => Some(head),
            Stage::Behind { head } => Some(head),
            // Dropped by a call, for the proof's sake as in `take_line`.
            stage => {
                drop(stage);
                None
            }
        }
    }

    /// What the end of input gives here: Ok where the certificate is whole, or Cut.
    pub fn finish(&self) -> Result<(), DocFault>
        requires { IsUnbroken self.now }
        ensures { FinishesText self.now result }
    {
        match &self.stage {
            Stage::Behind { .. } => Ok(()),
            _ => Err(DocFault {
                line: self.lines + 1,
                kind: DocKind::Cut,
            }),
        }
    }
}
