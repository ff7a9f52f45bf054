// Documents line by line.
ghost use Rattle.std.specs.Prelude.{◌≡◌, ◌≢◌, [], true, All, IfOk, MatchOption, None, Some};
ghost use Rattle.bp_document.specs.Scanning.{FeedsLine, FinishesText, GivesHead, HasFed, HasTold, IsUnbroken};
ghost use Rattle.bp_document.specs.Stages.{told_head};

use crate::room::Room;
use crate::stage::{Memory, Stage};
use crate::step::take_line;
use crate::{DocFault, DocKind, Head, NodeLine};
use bp_base::NoMemory;
use bp_tree::Grower;
use std::alloc::Global;
use std::marker::Model;
use std::mem;

/// The most bytes of a line of any form, without its LF. Of a longer line it is enough to hold one byte more.
pub const MOST_LINE: u64 = 512;

/// A document that is read line by line, without holding its proof. Contracts see how many lines it was fed
/// without a fault and what they told; `HasFed` says which text and which nodes these were.
#[derive(Drop)]
pub struct Scanner {
    alloc: Global,
    lines: u64,
    stage: Stage,
}

impl Model for Scanner {
    ghost use Rattle.bp_document.specs.Scanning.{Progress};
    ghost use Rattle.bp_document.specs.Stages.{IsWithin};

    ghost Value = { Progress };

    ghost view = { λ s. record { lines = s.lines; stage = s.stage } };

    ghost invariant = { λ s. IsWithin s.stage s.lines };
}

impl Scanner {
    /// A scanner that was fed nothing. It takes all its memory here.
    pub fn open(alloc: Global) -> Result<Scanner, NoMemory>
        ensures whole { IfOk result (λ s. IsUnbroken s) }
        ensures nothing { IfOk result (λ s. HasFed s [] []) }
    {
        let grower = Grower::new(alloc)?;
        let points = Room::new(alloc)?;
        let leaves = Room::new(alloc)?;
        let memory = Memory {
            grower,
            points,
            leaves,
        };
        Ok(Scanner {
            alloc,
            lines: 0,
            stage: Stage::Version { memory },
        })
    }

    /// Takes the next line, without its LF; `ended` says whether the LF was there. Some is the node of a node line.
    /// An Err is the first fault that the line has, with its number; nothing may be fed after it.
    pub fn feed(&mut self, line: &[u8], ended: bool) -> Result<Option<NodeLine>, DocFault>
        requires whole { IsUnbroken self.old }
        requires free { All (λ b. b ≢ 10) line.now }
        requires some { line.now ≡ [] → ended ≡ true }
        ensures { FeedsLine self.old line.now ended self.new result }
    {
        let number = self.lines + 1;
        let stage = mem::replace(&mut self.stage, Stage::Broken { told: None });
        match take_line(self.alloc, stage, line, ended) {
            Ok(step) => {
                // Dropped by a call: the proof of a drop in place goes through all that a stage holds, branch by branch.
                drop(mem::replace(&mut self.stage, step.stage));
                self.lines = number;
                Ok(step.node)
            }
            Err(fall) => {
                drop(mem::replace(&mut self.stage, Stage::Broken { told: fall.head }));
                Err(DocFault {
                    line: number,
                    kind: fall.kind,
                })
            }
        }
    }

    /// What the lines fed tell of the document before its node lines. None exactly before the proof line was fed.
    pub fn head(&self) -> Option<&Head>
        ensures head { MatchOption result (told_head self.now.stage ≡ None) (λ h. told_head self.now.stage ≡ Some h.now) }
        ensures told { HasTold self.now }
    {
        match &self.stage {
            Stage::Nodes { head, .. } => Some(head),
            Stage::Behind { head } => Some(head),
            Stage::Broken { told } => told.as_ref(),
            _ => None,
        }
    }

    /// What the end of input gives here: Ok where the document is whole, or Cut.
    pub fn finish(&self) -> Result<(), DocFault>
        requires { IsUnbroken self.now }
        ensures { FinishesText self.now result }
    {
        match &self.stage {
            Stage::Behind { .. } => Ok(()),
            _ => Err(DocFault {
                line: self.lines + 1,
                kind: DocKind::Cut,
            }),
        }
    }

    /// The head of a whole document, or what else the end of input gives.
    pub(crate) fn into_head(self) -> Result<Head, DocFault>
        requires { IsUnbroken self }
        ensures { GivesHead self result }
    {
        match self.stage {
            Stage::Behind { head } => Ok(head),
            stage => {
                // Dropped by a call, for the proof's sake as in `feed`.
                drop(stage);
                Err(DocFault {
                    line: self.lines + 1,
                    kind: DocKind::Cut,
                })
            }
        }
    }
}
