// Texts that are written in memory, to see how long they are.
ghost use Rattle.std.specs.Prelude.{◌≡◌, ◌↔◌, ◌+◌, ◌≤◌, Some, [], IfOk, IsTrue, MatchOption, length};
ghost use Rattle.bp_base.specs.Limits.{most_document_bytes};
ghost use Rattle.bp_base.specs.Tree.{leaf_count};
ghost use Rattle.bp_certificate.specs.Lines.{lemma_line};
ghost use Rattle.bp_certificate.specs.Ranges.{most_line_bytes};
ghost use Rattle.bp_certificate.specs.Text.{certificate_text};

use bp_base::{Failed, MOST_DOCUMENT_BYTES, NoMemory, Sequence, Sink};
use bp_certificate::{Certificate, Lemma, MOST_LINE_BYTES, put_lemma, write_certificate};
use std::alloc::Global;

// Bytes in memory. A write fails where there is no room left, or for want of memory.
#[derive(Drop)]
struct Text {
    bytes: Vec<u8>,
    room: u64,
    faults: u64,
}

impl Text {
    fn new(alloc: Global, room: u64) -> Text
        ensures { result.bytes.items ≡ [] }
    {
        Text {
            bytes: Vec::new(alloc),
            room,
            faults: 0,
        }
    }
}

impl Sink for Text {
    ghost held = { λ s. Some s.bytes.items };

    ghost faults = { λ s. s.faults };

    fn write(&mut self, piece: &[u8]) -> Result<u64, Failed> {
        let left = self.room.saturating_sub(self.bytes.len() as u64);
        let count = left.min(piece.len() as u64) as usize;
        if count == 0 || self.bytes.extend_from_slice(&piece[..count]).is_err() {
            self.faults = self.faults.saturating_add(1);
            return Err(Failed);
        }
        Ok(count as u64)
    }
}

// Whether the lemma's line has at most 1,000,000 bytes before its LF.
pub fn is_short(alloc: Global, lemma: &Lemma) -> Result<bool, NoMemory>
    ensures { IfOk result (λ short. IsTrue short ↔ (length (lemma_line lemma.now) ≤ most_line_bytes + 1)) }
{
    // one byte more than a line may have, so that a longer one is told from want of memory
    let mut line = Text::new(alloc, MOST_LINE_BYTES + 2);
    let put = put_lemma(&mut line, lemma);
    let most = MOST_LINE_BYTES + 1;
    let length = line.bytes.len() as u64;
    if length > most {
        return Ok(false);
    }
    match put {
        Ok(()) => Ok(true),
        Err(Failed) => Err(NoMemory),
    }
}

// The certificate's text, where it is short enough to be read.
pub fn text_of(alloc: Global, certificate: &Certificate) -> Result<Option<Sequence<u8>>, NoMemory>
    requires each { length certificate.now.points ≡ leaf_count certificate.now.tree }
    ensures { IfOk result (λ text. MatchOption text (length (certificate_text certificate.now) ≤ most_document_bytes → ⊥) (λ bytes. (bytes ≡ certificate_text certificate.now) × (length bytes ≤ most_document_bytes))) }
{
    let mut text = Text::new(alloc, MOST_DOCUMENT_BYTES + 1);
    let put = write_certificate(certificate, &mut text);
    let most = MOST_DOCUMENT_BYTES;
    let length = text.bytes.len() as u64;
    if length > most {
        return Ok(None);
    }
    match put {
        Ok(()) => Ok(Some(Sequence::from_vec(text.bytes))),
        Err(Failed) => Err(NoMemory),
    }
}
