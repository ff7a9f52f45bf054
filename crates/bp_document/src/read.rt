ghost use Rattle.std.specs.Prelude.{◌≡◌, ◌≢◌, ◌≤◌, ◌<◌, [], true, length, All};
ghost use Rattle.bp_base.specs.Limits.{most_document_bytes};
ghost use Rattle.bp_document.specs.Faults.{IsOnlyAnswer, ReadsDocument};
ghost use Rattle.bp_document.specs.Reading.{EndsDocument, HasRead, ReadsLine, ReadsLines};
ghost use Rattle.bp_document.specs.Scanning.{IsUnbroken};
ghost use Rattle.bp_document.specs.Told.{document_of};

use crate::builder::Builder;
use crate::scanner::Scanner;
use crate::{DocFault, DocKind, Document, Head, ReadDoc};
use bp_base::{MOST_DOCUMENT_BYTES, NoMemory, Refutation};
use bp_text::line;
use std::alloc::Global;

/// The document of a text in either version. A fault is the first one, and comes exactly where the bytes are the text of no document.
pub fn read_document(alloc: Global, bytes: &[u8]) -> Result<Document, ReadDoc>
    ensures reads { ReadsDocument bytes.now result }
    ensures only { IsOnlyAnswer bytes.now result }
{
    if bytes.len() as u64 > MOST_DOCUMENT_BYTES {
        return Err(ReadDoc::Fault(DocFault {
            line: 0,
            kind: DocKind::TooLong,
        }));
    }
    let mut scanner = match Scanner::open(alloc) {
        Ok(scanner) => scanner,
        Err(NoMemory) => return Err(ReadDoc::NoMemory),
    };
    let mut builder = Builder::new(alloc);
    match read_lines(alloc, &mut scanner, &mut builder, bytes) {
        Ok(()) => end_document(scanner, builder),
        Err(error) => {
            // Dropped by a call: the proof of a drop in place goes through all that a scanner holds, branch by branch.
            drop(scanner);
            Err(error)
        }
    }
}

// Reads all lines.
fn read_lines(
    alloc: Global,
    scanner: &mut Scanner,
    builder: &mut Builder,
    bytes: &[u8],
) -> Result<(), ReadDoc>
    requires short { length bytes.now ≤ most_document_bytes }
    requires whole { IsUnbroken scanner.old }
    requires nothing { HasRead scanner.old builder.old [] }
    ensures { ReadsLines bytes.now scanner.new builder.new result }
{
    let mut at = 0;
    while let Some(here) = line(bytes, at) {
        let text = &bytes[here.from as usize..here.to as usize];
        match read_line(alloc, scanner, builder, text, here.ended) {
            Ok(()) => {}
            Err(error) => return Err(error),
        }
        at = here.next;
    }
    Ok(())
}

// Feeds a line, and adds its node where it is a node's.
fn read_line(
    alloc: Global,
    scanner: &mut Scanner,
    builder: &mut Builder,
    line: &[u8],
    ended: bool,
) -> Result<(), ReadDoc>
    requires whole { IsUnbroken scanner.old }
    requires free { All (λ b. b ≢ 10) line.now }
    requires some { line.now ≡ [] → ended ≡ true }
    ensures { ReadsLine scanner.old builder.old line.now ended scanner.new builder.new result }
{
    match scanner.feed(line, ended) {
        Err(fault) => Err(ReadDoc::Fault(fault)),
        Ok(None) => Ok(()),
        Ok(Some(node)) => match builder.add(alloc, node) {
            Ok(()) => Ok(()),
            Err(NoMemory) => Err(ReadDoc::NoMemory),
        },
    }
}

// The document of all lines.
fn end_document(scanner: Scanner, builder: Builder) -> Result<Document, ReadDoc>
    requires { IsUnbroken scanner }
    ensures { EndsDocument scanner builder result }
{
    let head = match scanner.into_head() {
        Ok(head) => head,
        Err(fault) => return Err(ReadDoc::Fault(fault)),
    };
    match builder.finish() {
        Ok(proof) => Ok(document_of(head, proof)),
        Err(NoMemory) => Err(ReadDoc::NoMemory),
    }
}

// The document of a head and a proof.
fn document_of(head: Head, proof: Option<Refutation>) -> Document
    ensures { result ≡ document_of head proof }
{
    Document {
        tree: head.tree,
        side: head.side,
        bound: head.bound,
        points: head.points,
        floor: head.floor,
        proof,
        sheet: head.sheet,
    }
}
