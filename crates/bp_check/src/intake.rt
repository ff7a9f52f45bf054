// A document that is checked while its bytes come.
ghost use Rattle.std.specs.Prelude.{◌≡◌, ◌≢◌, ◌⊎◌, ◌≤◌, ◌++◌, [], ◌∷◌, length, All, None, Some, IfOk, List, ℕ};
ghost use Rattle.bp_base.specs.Limits.{most_document_bytes};
ghost use Rattle.bp_base.specs.Tree.{TreeValue, leaf_count};
ghost use Rattle.bp_document.specs.declared.document.Document.{Document as AnyDocument};
ghost use Rattle.bp_document.specs.declared.node_line.NodeLine.{NodeLine as AnyLine};
ghost use Rattle.bp_document.specs.declared.head.Head.{Head as AnyHead};
ghost use Rattle.bp_document.specs.Stages.{told_head};
ghost use Rattle.bp_check.specs.Intake.{EndsIntake, HasTakenIn, HasScanned, IsAhead, IsUnderway, IsScanned, IsWhole, Starts, Takes, end_of, AnswersText};
ghost use Rattle.bp_check.specs.Streams.{ChecksText};
ghost use Rattle.bp_check.specs.Verdicts.{HasParts, IsFoundOf, IsVerdictOf};

use crate::checking::{reason_before_proof, verdict_of};
use crate::fault::Streamed;
use crate::found::Found;
use crate::held::HeldLine;
use crate::stack::Stack;
use crate::verdict::Verdict;
use bp_base::{MOST_DOCUMENT_BYTES, NoMemory, TakesBytes, Tree};
use bp_document::{
    DocFault, DocKind, Head, NodeLine, Scanner, law_of_long_lines, law_of_one_answer,
};
use bp_metric::Metric;
use bp_text::line;
use std::alloc::Global;

/// What is kept of a document while its bytes come: what its lines told, the open splits of its proof, the line that has not ended yet,
/// and the first fault. The metric is on a square until the sheet is told.
#[derive(Drop)]
pub struct Intake {
    pub scanner: Scanner,
    pub metric: Metric,
    pub stack: Stack,
    pub held: HeldLine,
    pub fault: Option<DocFault>,
}

impl Intake {
    /// The intake before the first byte, with the memory for all that it will hold.
    pub fn open(alloc: Global, tree: &Tree) -> Result<Intake, NoMemory>
        ensures underway { IfOk result (λ p. IsUnderway p) }
        ensures nothing { IfOk result (λ p. HasTakenIn tree.now p []) }
    {
        let metric = Metric::of(alloc, tree)?;
        let stack = Stack::empty(alloc)?;
        // Last, so that no failure drops it: the proof of such a drop goes through all that a scanner may hold.
        let scanner = Scanner::open(alloc)?;
        Ok(Intake {
            scanner,
            metric,
            stack,
            held: HeldLine::empty(),
            fault: None,
        })
    }

    // Takes a part of a line, and its LF where it is there.
    fn take_part(&mut self, part: &[u8], ended: bool)
        requires underway { IsUnderway self.old }
        requires free { All (λ b. b ≢ 10) part.now }
        ensures { Takes self.old self.new (part.now ++ end_of ended) }
    {
        if self.fault.is_some() {
            return;
        }
        self.held.extend(part);
        if ended {
            self.end_line();
        }
    }

    // The line that is held has its LF. A long line has the fault of its first bytes.
    fn end_line(&mut self)
        requires underway { IsUnderway self.old }
        requires whole { self.old.fault ≡ None }
        ensures { Takes self.old self.new (10 ∷ []) }
    {
        law_of_long_lines();
        let scanned = self.scanner.feed(self.held.as_slice(), true);
        self.held.clear();
        match scanned {
            Ok(None) => {}
            Ok(Some(node)) => self.judge(node),
            Err(fault) => self.fault = Some(fault),
        }
    }

    // Judges the node that the last line gave.
    fn judge(&mut self, node: NodeLine)
        requires ahead { IsAhead self.old node }
        ensures judged { (T : TreeValue) (text : List ℕ) (ns : List AnyLine) → IsScanned T self.old text (ns ++ node ∷ []) ns → IsScanned T self.new text (ns ++ node ∷ []) (ns ++ node ∷ []) }
        ensures held { self.new.held ≡ self.old.held }
        ensures fault { self.new.fault ≡ self.old.fault }
    {
        self.set_sheet();
        self.stack.feed(&self.metric, &node);
    }

    // Puts the metric on the sheet of the document, where it is told. No node is judged before.
    fn set_sheet(&mut self)
        requires scanned { HasScanned self.old }
        ensures set { (T : TreeValue) (text : List ℕ) (all : List AnyLine) (ns : List AnyLine) → IsScanned T self.old text all ns → IsScanned T self.new text all ns × ((all ≡ []) ⊎ Starts text self.new.metric.sheet) }
        ensures sheet { (H : AnyHead) → told_head self.new.scanner.stage ≡ Some H → self.new.metric.sheet ≡ H.sheet }
        ensures scanner { self.new.scanner ≡ self.old.scanner }
        ensures held { self.new.held ≡ self.old.held }
        ensures fault { self.new.fault ≡ self.old.fault }
    {
        if let Some(head) = self.scanner.head() {
            self.metric.set_sheet(head.sheet);
        }
    }

    /// What the bytes taken, which are this many, are as a whole.
    pub fn finish(&mut self, count: u64) -> Result<Streamed, DocFault>
        requires underway { IsUnderway self.old }
        ensures { (T : TreeValue) (bytes : List ℕ) → length bytes ≡ count → HasTakenIn T self.old bytes → AnswersText T bytes result }
    {
        law_of_one_answer();
        if count > MOST_DOCUMENT_BYTES {
            return Err(DocFault {
                line: 0,
                kind: DocKind::TooLong,
            });
        }
        if let Some(fault) = self.fault {
            return Err(fault);
        }
        match self.end() {
            Ok(()) => Ok(self.answer()),
            Err(fault) => Err(fault),
        }
    }

    // The end of the input: a fault of the line that has no LF, or of the end behind whole lines.
    fn end(&mut self) -> Result<(), DocFault>
        requires underway { IsUnderway self.old }
        requires whole { self.old.fault ≡ None }
        ensures { EndsIntake self.old self.new result }
    {
        law_of_long_lines();
        let line = self.held.as_slice();
        if line.is_empty() {
            return self.scanner.finish();
        }
        match self.scanner.feed(line, false) {
            Err(fault) => Err(fault),
            Ok(_) => unreachable!(),
        }
    }

    // The answer for a whole document.
    fn answer(&mut self) -> Streamed
        requires whole { (T : TreeValue) × (bytes : List ℕ) × IsWhole T self.old bytes }
        ensures { (T : TreeValue) (bytes : List ℕ) → IsWhole T self.old bytes → length bytes ≤ most_document_bytes → ChecksText T bytes result }
    {
        self.set_sheet();
        let found = self.stack.finish(&self.metric);
        match self.scanner.head() {
            None => unreachable!(),
            Some(head) => Streamed {
                verdict: verdict(&self.metric, head, found),
                side: head.side,
                bound: head.bound,
            },
        }
    }
}

impl TakesBytes for Intake {
    ghost is_open = { λ p. IsUnderway p };

    ghost takes = { λ p bytes q. Takes p q bytes };

    ghost wants_memory = { ⊥ };

    // After a fault the bytes are passed over.
    fn take(&mut self, bytes: &[u8]) -> Result<(), NoMemory> {
        let mut at = 0;
        while let Some(here) = line(bytes, at) {
            let part = &bytes[here.from as usize..here.to as usize];
            self.take_part(part, here.ended);
            at = here.next;
        }
        Ok(())
    }
}

// The verdict of a document of this head, by what is found of its proof.
fn verdict(metric: &Metric, head: &Head, found: Found) -> Verdict
    requires each { length head.now.points ≡ leaf_count head.now.tree }
    requires sheet { head.now.sheet ≡ metric.now.sheet }
    ensures { (D : AnyDocument) → HasParts D head.now.tree metric.now.sheet head.now.side head.now.points head.now.floor → D.bound ≡ head.now.bound → IsFoundOf metric.now.tree metric.now.sheet D.proof found → IsVerdictOf metric.now.tree D result }
{
    let points = head.points.as_slice();
    let reason = reason_before_proof(metric, &head.tree, head.side, points, &head.floor);
    if let Some(reason) = reason {
        return Verdict::No(reason);
    }
    verdict_of(head.bound, head.floor.side, found)
}
