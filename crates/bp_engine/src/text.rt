// A text that is written in memory before anything goes out.
ghost use Rattle.std.specs.Prelude.{◌≡◌, Some, [], IfOk};
ghost use Rattle.bp_document.specs.Ranges.{IsDocument};
ghost use Rattle.bp_document.specs.Text.{doc_text};

use bp_base::{Failed, NoMemory, Sink};
use bp_document::{Document, write_document};
use std::alloc::Global;

/// Bytes in memory. A write fails only for want of memory, which is counted as a fault.
#[derive(Drop)]
pub struct Text {
    pub bytes: Vec<u8>,
    pub faults: u64,
}

impl Text {
    /// No bytes yet.
    pub fn new(alloc: Global) -> Text
        ensures { result.bytes.items ≡ [] }
    {
        Text {
            bytes: Vec::new(alloc),
            faults: 0,
        }
    }
}

impl Sink for Text {
    ghost held = { λ s. Some s.bytes.items };

    ghost faults = { λ s. s.faults };

    fn write(&mut self, piece: &[u8]) -> Result<u64, Failed> {
        if self.bytes.extend_from_slice(piece).is_err() {
            self.faults = self.faults.saturating_add(1);
            return Err(Failed);
        }
        Ok(piece.len() as u64)
    }
}

// The document's text, in version 2.
pub fn document_text(alloc: Global, document: &Document) -> Result<Vec<u8>, NoMemory>
    requires { IsDocument document.now }
    ensures { IfOk result (λ v. v.items ≡ doc_text document.now) }
{
    let mut text = Text::new(alloc);
    match write_document(document, &mut text) {
        Ok(()) => Ok(text.bytes),
        Err(Failed) => Err(NoMemory),
    }
}
