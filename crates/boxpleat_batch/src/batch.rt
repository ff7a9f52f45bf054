// A batch: its input is read whole, its pieces are answered by workers, and all replies are written in one go.
ghost use Rattle.std.specs.Prelude.{◌≡◌, ◌⊎◌, ◌↔◌, ◌≤◌, ◌<◌, ℕ, List, Some, codes, length, map, string_bytes, IfErr, IfOk};
ghost use Rattle.bp_base.specs.Causes.{Rose};
ghost use Rattle.bp_base.specs.Limits.{most_budget};
ghost use Rattle.bp_engine.specs.Run.{Tells};
ghost use Rattle.boxpleat_batch.specs.Batch.{Does, IsDone, IsUnwritten, Writes};
ghost use Rattle.boxpleat_batch.specs.Pieces.{most_batch_bytes, most_pieces, pieces_of};
ghost use Rattle.boxpleat_batch.specs.Replies.{AreReplies, Reply, batch_text};
ghost use Rattle.boxpleat_batch.specs.Texts.{text_of};
ghost use Rattle.boxpleat_batch.specs.Words.{IsNumberOf, Takes};

use crate::given::given;
use crate::pieces::{Uncut, cut};
use crate::slot::{slots_for, text_of_all};
use crate::status::{BatchFault, BatchStatus};
use crate::telling::tell;
use crate::words::{Asked, Unasked, asked_of};
use crate::working::answer_all;
use bp_base::{Failed, Gate, Sink, Source};
use bp_catalogue::Catalogue;
use bp_text::put;
use std::alloc::Global;
use std::sync::{Mutex, Wait};
use std::thread::Threads;

/// Reads trees and answers each in its place. It may wait for its workers, and promises no return.
pub fn run_batch<R: Threads + Wait + Sync, T: Source, K: Sink, E: Sink, G: Gate + Sync>(
    rt: &R,
    alloc: Global,
    words: &[String],
    input: &mut T,
    out: &mut K,
    err: &mut E,
    shared: &Mutex<Catalogue>,
    gate: &G,
) -> BatchStatus
    // Usage comes exactly where the command refuses the words for another cause than memory, and then nothing is read or written.
    ensures usage { (result ≡ BatchStatus.NoMemory) ⊎ ((result ≡ BatchStatus.Usage) ↔ (Takes (map string_bytes words.now) → ⊥)) }
    ensures silent { result ≡ BatchStatus.Usage → (input.new ≡ input.old) × (out.new ≡ out.old) }
    // What was read and written, with which status.
    ensures does { (B : ℕ) → IsNumberOf (codes "budget") (map string_bytes words.now) B → Takes (map string_bytes words.now) → Does B (T.left input.old) (T.left input.new) (K.held out.old) (K.held out.new) result }
    ensures unwritten { IsUnwritten result → out.new ≡ out.old }
    // A fault comes only where its count rose.
    ensures read { result ≡ BatchStatus.ReadFault → Rose (T.faults input.old) (T.faults input.new) }
    ensures write { result ≡ BatchStatus.WriteFault → Rose (K.faults out.old) (K.faults out.new) }
    ensures complete { Takes (map string_bytes words.now) → (Rose (T.faults input.old) (T.faults input.new) → ⊥) → (Rose (K.faults out.old) (K.faults out.new) → ⊥) → (b : List ℕ) → T.left input.old ≡ Some b → length b ≤ most_batch_bytes → length (pieces_of b) ≤ most_pieces → IsDone result }
    // The status is told on `err`.
    ensures told { Tells (E.held err.old) (E.held err.new) (E.faults err.old) (E.faults err.new) (text_of result) }
{
    let status = answer(rt, alloc, words, input, out, shared, gate);
    tell(err, status);
    status
}

// Reads trees as the words ask for, and writes their replies.
fn answer<R: Threads + Wait + Sync, T: Source, K: Sink, G: Gate + Sync>(
    rt: &R,
    alloc: Global,
    words: &[String],
    input: &mut T,
    out: &mut K,
    shared: &Mutex<Catalogue>,
    gate: &G,
) -> BatchStatus
    ensures usage { (result ≡ BatchStatus.NoMemory) ⊎ ((result ≡ BatchStatus.Usage) ↔ (Takes (map string_bytes words.now) → ⊥)) }
    ensures silent { result ≡ BatchStatus.Usage → (input.new ≡ input.old) × (out.new ≡ out.old) }
    ensures does { (B : ℕ) → IsNumberOf (codes "budget") (map string_bytes words.now) B → Takes (map string_bytes words.now) → Does B (T.left input.old) (T.left input.new) (K.held out.old) (K.held out.new) result }
    ensures unwritten { IsUnwritten result → out.new ≡ out.old }
    ensures read { result ≡ BatchStatus.ReadFault → Rose (T.faults input.old) (T.faults input.new) }
    ensures write { result ≡ BatchStatus.WriteFault → Rose (K.faults out.old) (K.faults out.new) }
    ensures complete { Takes (map string_bytes words.now) → (Rose (T.faults input.old) (T.faults input.new) → ⊥) → (Rose (K.faults out.old) (K.faults out.new) → ⊥) → (b : List ℕ) → T.left input.old ≡ Some b → length b ≤ most_batch_bytes → length (pieces_of b) ≤ most_pieces → IsDone result }
{
    match asked_of(alloc, words) {
        Ok(asked) => do_batch(rt, alloc, asked, input, out, shared, gate),
        Err(Unasked::Refused) => BatchStatus::Usage,
        Err(Unasked::NoMemory) => BatchStatus::NoMemory,
    }
}

fn do_batch<R: Threads + Wait + Sync, T: Source, K: Sink, G: Gate + Sync>(
    rt: &R,
    alloc: Global,
    asked: Asked,
    input: &mut T,
    out: &mut K,
    shared: &Mutex<Catalogue>,
    gate: &G,
) -> BatchStatus
    requires workers { 1 ≤ asked.workers }
    requires budget { (1 ≤ asked.budget) × (asked.budget ≤ most_budget) }
    ensures usage { result ≡ BatchStatus.Usage → ⊥ }
    ensures does { Does asked.budget (T.left input.old) (T.left input.new) (K.held out.old) (K.held out.new) result }
    ensures unwritten { IsUnwritten result → out.new ≡ out.old }
    ensures read { result ≡ BatchStatus.ReadFault → Rose (T.faults input.old) (T.faults input.new) }
    ensures write { result ≡ BatchStatus.WriteFault → Rose (K.faults out.old) (K.faults out.new) }
{
    match given(alloc, input) {
        Ok(bytes) => match replies(rt, alloc, &bytes, asked, shared, gate) {
            Ok(text) => written(out, &text),
            Err(Uncut::TooManyPieces) => BatchStatus::Refused(BatchFault::TooManyPieces),
            Err(Uncut::NoMemory) => BatchStatus::NoMemory,
        },
        Err(status) => status,
    }
}

// The text of the replies to all pieces of the bytes.
fn replies<R: Threads + Wait + Sync, G: Gate + Sync>(
    rt: &R,
    alloc: Global,
    bytes: &[u8],
    asked: Asked,
    shared: &Mutex<Catalogue>,
    gate: &G,
) -> Result<Vec<u8>, Uncut>
    requires workers { 1 ≤ asked.workers }
    requires budget { (1 ≤ asked.budget) × (asked.budget ≤ most_budget) }
    ensures text { IfOk result (λ v. (replies : List Reply) × AreReplies asked.budget (pieces_of bytes.now) replies × (v.items ≡ batch_text replies)) }
    ensures few { IfOk result (λ v. length (pieces_of bytes.now) ≤ most_pieces) }
    ensures many { IfErr result (λ e. e ≡ Uncut.TooManyPieces → most_pieces < length (pieces_of bytes.now)) }
{
    let pieces = cut(alloc, bytes)?;
    let mut slots = slots_for(alloc, &pieces)?;
    answer_all(rt, alloc, bytes, asked, shared, gate, &mut slots);
    let text = text_of_all(alloc, &slots)?;
    Ok(text)
}

fn written<K: Sink>(out: &mut K, text: &[u8]) -> BatchStatus
    ensures { Writes (K.held out.old) (K.held out.new) (K.faults out.old) (K.faults out.new) text.now result }
{
    match put(out, text) {
        Ok(()) => BatchStatus::Done,
        Err(Failed) => BatchStatus::WriteFault,
    }
}
