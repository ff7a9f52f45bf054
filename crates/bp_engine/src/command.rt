ghost use Rattle.std.specs.Prelude.{◌≡◌, ◌↔◌, IsTrue, None, map, string_bytes};
ghost use Rattle.bp_words.specs.declared.words.Words.{Words};
ghost use Rattle.bp_words.specs.Words.{IsWords};
ghost use Rattle.bp_engine.specs.Outcomes.{HasRanges};
ghost use Rattle.bp_engine.specs.Run.{Does, IsSilent, Leaves, Tells, asked_of, sheet_of};
ghost use Rattle.bp_engine.specs.Texts.{text_of};

use crate::Status;
use crate::checking::check_both;
use crate::design::{Asked, design};
use crate::drawing::{Drawing, draw};
use crate::making::make;
use crate::pages::{HELP, VERSION, show};
use crate::revising::revise_both;
use crate::rewriting::rewrite;
use crate::solve::solve;
use crate::tell::tell;
use crate::trying::try_made;
use crate::verifying::verify_both;
use bp_base::{Gate, Sheet, Sink, Source};
use bp_words::{MirrorKind, Words, one_meaning, words_of};
use std::alloc::Global;
use std::thread::Threads;

/// Does what the words say. It reads and writes nothing but what the command reads and writes.
pub fn run<R: Threads + Sync, T: Source, D: Source, K: Sink, F: Sink, E: Sink, G: Gate + Sync>(
    rt: &R,
    alloc: Global,
    words: &[String],
    tree: &mut T,
    doc: &mut D,
    out: &mut K,
    fold: &mut F,
    err: &mut E,
    gate: &G,
) -> Status
    // Usage comes exactly where the words ask for nothing.
    ensures usage { (result ≡ Status.Usage) ↔ ((w : Words) → IsWords (map string_bytes words.now) w → ⊥) }

    // With Usage, and where what is asked for isn't built, nothing is read or written.
    ensures silent { IsSilent result → (tree.new ≡ tree.old) × (doc.new ≡ doc.old) × (out.new ≡ out.old) × (fold.new ≡ fold.old) }

    // What the command has read and written, with which status, and what it leaves as it was.
    ensures does { (w : Words) → IsWords (map string_bytes words.now) w → Does w (record { tree = T.left tree.old; doc = D.left doc.old; out = K.held out.old; fold = F.held fold.old; tree_faults = T.faults tree.old; doc_faults = D.faults doc.old; out_faults = K.faults out.old; fold_faults = F.faults fold.old }) (record { tree = T.left tree.new; doc = D.left doc.new; out = K.held out.new; fold = F.held fold.new; tree_faults = T.faults tree.new; doc_faults = D.faults doc.new; out_faults = K.faults out.new; fold_faults = F.faults fold.new }) result }
    ensures leaves { (w : Words) → IsWords (map string_bytes words.now) w → Leaves w (record { tree = T.left tree.old; doc = D.left doc.old; out = K.held out.old; fold = F.held fold.old; tree_faults = T.faults tree.old; doc_faults = D.faults doc.old; out_faults = K.faults out.old; fold_faults = F.faults fold.old }) (record { tree = T.left tree.new; doc = D.left doc.new; out = K.held out.new; fold = F.held fold.new; tree_faults = T.faults tree.new; doc_faults = D.faults doc.new; out_faults = K.faults out.new; fold_faults = F.faults fold.new }) result tree.old tree.new doc.old doc.new out.old out.new fold.old fold.new }

    // The status is told on `err`.
    ensures told { Tells (E.held err.old) (E.held err.new) (E.faults err.old) (E.faults err.new) (text_of result) }
{
    let status = answer(rt, alloc, words, tree, doc, out, fold, gate);
    tell(err, status);
    status
}

// Does what the words say.
fn answer<R: Threads + Sync, T: Source, D: Source, K: Sink, F: Sink, G: Gate + Sync>(
    rt: &R,
    alloc: Global,
    words: &[String],
    tree: &mut T,
    doc: &mut D,
    out: &mut K,
    fold: &mut F,
    gate: &G,
) -> Status
    ensures usage { (result ≡ Status.Usage) ↔ ((w : Words) → IsWords (map string_bytes words.now) w → ⊥) }
    ensures silent { IsSilent result → (tree.new ≡ tree.old) × (doc.new ≡ doc.old) × (out.new ≡ out.old) × (fold.new ≡ fold.old) }
    ensures does { (w : Words) → IsWords (map string_bytes words.now) w → Does w (record { tree = T.left tree.old; doc = D.left doc.old; out = K.held out.old; fold = F.held fold.old; tree_faults = T.faults tree.old; doc_faults = D.faults doc.old; out_faults = K.faults out.old; fold_faults = F.faults fold.old }) (record { tree = T.left tree.new; doc = D.left doc.new; out = K.held out.new; fold = F.held fold.new; tree_faults = T.faults tree.new; doc_faults = D.faults doc.new; out_faults = K.faults out.new; fold_faults = F.faults fold.new }) result }
    ensures leaves { (w : Words) → IsWords (map string_bytes words.now) w → Leaves w (record { tree = T.left tree.old; doc = D.left doc.old; out = K.held out.old; fold = F.held fold.old; tree_faults = T.faults tree.old; doc_faults = D.faults doc.old; out_faults = K.faults out.old; fold_faults = F.faults fold.old }) (record { tree = T.left tree.new; doc = D.left doc.new; out = K.held out.new; fold = F.held fold.new; tree_faults = T.faults tree.new; doc_faults = D.faults doc.new; out_faults = K.faults out.new; fold_faults = F.faults fold.new }) result tree.old tree.new doc.old doc.new out.old out.new fold.old fold.new }
{
    one_meaning(words);
    match words_of(words) {
        None => Status::Usage,
        Some(asked) => do_asked(rt, alloc, asked, tree, doc, out, fold, gate),
    }
}

// Does what is asked.
fn do_asked<R: Threads + Sync, T: Source, D: Source, K: Sink, F: Sink, G: Gate + Sync>(
    rt: &R,
    alloc: Global,
    words: Words,
    tree: &mut T,
    doc: &mut D,
    out: &mut K,
    fold: &mut F,
    gate: &G,
) -> Status
    requires { HasRanges words }
    ensures no_usage { result ≡ Status.Usage → ⊥ }
    ensures silent { IsSilent result → (tree.new ≡ tree.old) × (doc.new ≡ doc.old) × (out.new ≡ out.old) × (fold.new ≡ fold.old) }
    ensures does { Does words (record { tree = T.left tree.old; doc = D.left doc.old; out = K.held out.old; fold = F.held fold.old; tree_faults = T.faults tree.old; doc_faults = D.faults doc.old; out_faults = K.faults out.old; fold_faults = F.faults fold.old }) (record { tree = T.left tree.new; doc = D.left doc.new; out = K.held out.new; fold = F.held fold.new; tree_faults = T.faults tree.new; doc_faults = D.faults doc.new; out_faults = K.faults out.new; fold_faults = F.faults fold.new }) result }
    ensures leaves { Leaves words (record { tree = T.left tree.old; doc = D.left doc.old; out = K.held out.old; fold = F.held fold.old; tree_faults = T.faults tree.old; doc_faults = D.faults doc.old; out_faults = K.faults out.old; fold_faults = F.faults fold.old }) (record { tree = T.left tree.new; doc = D.left doc.new; out = K.held out.new; fold = F.held fold.new; tree_faults = T.faults tree.new; doc_faults = D.faults doc.new; out_faults = K.faults out.new; fold_faults = F.faults fold.new }) result tree.old tree.new doc.old doc.new out.old out.new fold.old fold.new }
{
    match words {
        Words::Design {
            workers,
            budget,
            replay,
            fold: place,
            strip,
            steady,
        } => {
            let asked = asked_of(workers, budget, replay, place, strip, steady);
            design(rt, alloc, asked, tree, out, fold, gate)
        }
        Words::Check { .. } => check_both(alloc, tree, doc, out),
        Words::Contours => draw(alloc, Drawing::Loops, doc, out),
        Words::Pieces => draw(alloc, Drawing::Parts, doc, out),
        Words::Picture => draw(alloc, Drawing::Layout, doc, out),
        Words::Made { leaves, seed } => make(alloc, leaves, seed, out),
        Words::Rewrite => rewrite(alloc, doc, out),
        Words::Solve {
            budget,
            strip,
            fold: place,
            mirror,
        } => {
            if !has_no_mirror(mirror) {
                return Status::NotBuilt;
            }
            let asked = asked_of(1, budget, None, place, strip, None);
            solve(alloc, asked, tree, out, fold)
        }
        Words::Trial { leaves, seed } => try_made(alloc, leaves, seed, out),
        Words::Verify { .. } => verify_both(alloc, tree, doc, out),
        Words::Help => show(HELP, out),
        Words::Version => show(VERSION, out),
        Words::Revise { budget, .. } => revise_both(alloc, budget, tree, doc, out),
    }
}

// Designs with a mirror aren't built yet.
fn has_no_mirror(mirror: Option<MirrorKind>) -> bool
    ensures { IsTrue result ↔ (mirror ≡ None) }
{
    mirror.is_none()
}

fn asked_of(
    workers: u64,
    budget: u64,
    replay: Option<u64>,
    fold: Option<u64>,
    strip: Option<u64>,
    steady: Option<u64>,
) -> Asked
    ensures { result ≡ asked_of workers budget replay fold strip steady }
{
    Asked {
        sheet: sheet_of(strip),
        budget,
        hands: workers,
        replay,
        draws: fold.is_some(),
        steady,
    }
}

fn sheet_of(strip: Option<u64>) -> Sheet
    ensures { result ≡ sheet_of strip }
{
    match strip {
        None => Sheet::Square,
        Some(width) => Sheet::Strip { width },
    }
}
