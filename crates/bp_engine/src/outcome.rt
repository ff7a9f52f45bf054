// What is found is written: its text, then the drawing of its document's regions where one is asked for.
ghost use Rattle.std.specs.Prelude.{◌≡◌, ◌⊎◌, ◌<◌, ◌≤◌, ℕ, IfOk, IsFalse, IsTrue, MatchOption, None};
ghost use Rattle.bp_base.specs.declared.point.Sheet.TheVariants.{Square as square};
ghost use Rattle.bp_base.specs.Causes.{Appends, AppendsFront, Rose};
ghost use Rattle.bp_document.specs.Ranges.{IsDocument};
ghost use Rattle.bp_metric.specs.Valid.{Valid};
ghost use Rattle.bp_engine.specs.Designs.{AreDisjoint, IsFoldTextOf};
ghost use Rattle.bp_engine.specs.Outcomes.{WritesOutcome};
ghost use Rattle.bp_engine.specs.Texts.{MayWrite};

use crate::Status;
use crate::folding::fold_text;
use bp_base::{Failed, NoMemory, Sink};
use bp_document::Document;
use bp_text::put;
use std::alloc::Global;

// Writes the text, and behind it the drawing of the document where one is asked for, which is in memory before the first byte goes out.
pub fn write_outcome<K: Sink, F: Sink>(
    alloc: Global,
    draws: bool,
    text: Vec<u8>,
    document: Document,
    out: &mut K,
    fold: &mut F,
) -> Status
    requires ranges { IsDocument document }
    requires valid { IsTrue draws → Valid document.tree square 1 document.side document.points }
    ensures writes { WritesOutcome draws text.items document (record { out = K.held out.old; fold = F.held fold.old }) (record { out = K.held out.new; fold = F.held fold.new }) result }
    ensures ends { MayWrite result ⊎ (result ≡ Status.NoMemory) }
    ensures unwritten { (MayWrite result → ⊥) → (out.new ≡ out.old) × (fold.new ≡ fold.old) }
    ensures undrawn { IsFalse draws → fold.new ≡ fold.old }
    ensures whole { result ≡ Status.WriteFault → (fold.new ≡ fold.old) ⊎ Rose (F.faults fold.old) (F.faults fold.new) }
    ensures write { result ≡ Status.WriteFault → Rose (K.faults out.old) (K.faults out.new) ⊎ (IsTrue draws × Rose (F.faults fold.old) (F.faults fold.new)) }
{
    let status = status_of(document.side, document.bound);
    match fold_of(alloc, draws, document) {
        Ok(drawing) => write_texts(&text, &drawing, status, out, fold),
        Err(NoMemory) => Status::NoMemory,
    }
}

// The status of a document that is written whole.
pub fn status_of(side: u64, bound: u64) -> Status
    ensures done { side ≤ bound → result ≡ Status.Done }
    ensures gave_up { bound < side → result ≡ Status.GaveUp side bound }
    ensures ends { MayWrite result }
{
    if bound < side {
        Status::GaveUp { side, bound }
    } else {
        Status::Done
    }
}

fn fold_of(alloc: Global, draws: bool, document: Document) -> Result<Option<Vec<u8>>, NoMemory>
    requires ranges { IsDocument document }
    requires valid { IsTrue draws → Valid document.tree square 1 document.side document.points }
    ensures { IfOk result (λ o. MatchOption o (IsFalse draws) (λ v. IsTrue draws × AreDisjoint document × IsFoldTextOf document v.items)) }
{
    if !draws {
        return Ok(None);
    }
    let text = fold_text(alloc, document)?;
    Ok(Some(text))
}

// Writes the text whole before that of the drawing begins. The status comes where all is written.
fn write_texts<K: Sink, F: Sink>(
    text: &[u8],
    drawing: &Option<Vec<u8>>,
    status: Status,
    out: &mut K,
    fold: &mut F,
) -> Status
    requires { status ≡ Status.WriteFault → ⊥ }
    ensures texts { ((result ≡ status) × Appends (K.held out.old) (K.held out.new) text.now × MatchOption drawing.now (F.held fold.new ≡ F.held fold.old) (λ v. Appends (F.held fold.old) (F.held fold.new) v.items)) ⊎ ((result ≡ Status.WriteFault) × ((AppendsFront (K.held out.old) (K.held out.new) text.now × (F.held fold.new ≡ F.held fold.old)) ⊎ (Appends (K.held out.old) (K.held out.new) text.now × MatchOption drawing.now ⊥ (λ v. AppendsFront (F.held fold.old) (F.held fold.new) v.items)))) }
    ensures undrawn { drawing.now ≡ None → fold.new ≡ fold.old }
    ensures whole { result ≡ Status.WriteFault → (fold.new ≡ fold.old) ⊎ Rose (F.faults fold.old) (F.faults fold.new) }
    ensures write { result ≡ Status.WriteFault → Rose (K.faults out.old) (K.faults out.new) ⊎ MatchOption drawing.now ⊥ (λ v. Rose (F.faults fold.old) (F.faults fold.new)) }
{
    if put(out, text).is_err() {
        return Status::WriteFault;
    }
    match drawing {
        None => status,
        Some(drawn) => match put(fold, drawn) {
            Ok(()) => status,
            Err(Failed) => Status::WriteFault,
        },
    }
}
