// The work of a worker: the pieces of its slots, one after the other.
ghost use Rattle.std.specs.Prelude.{◌≡◌, ◌≤◌, ◌<◌, All, length, IfOk, IfSome, MatchOption};
ghost use Rattle.bp_base.specs.Limits.{most_budget};
ghost use Rattle.bp_catalogue.specs.Entries.{IsRight};
ghost use Rattle.bp_document.specs.declared.document.Document.{Document as AnyDocument};
ghost use Rattle.boxpleat_batch.specs.Pieces.{IsWithin};
ghost use Rattle.boxpleat_batch.specs.Replies.{Designed};
ghost use Rattle.boxpleat_batch.specs.Slots.{Answers, AnswersEach, IsTold, TellsReplyTo};

use crate::reply::{Told, told_design, told_fault};
use crate::slot::Slot;
use crate::words::Asked;
use bp_base::{Gate, NoMemory, Tree};
use bp_catalogue::Catalogue;
use bp_document::Document;
use bp_engine::design_tree;
use bp_tree::{ReadTree, read_tree};
use std::alloc::Global;
use std::sync::{Mutex, Wait};
use std::thread;
use std::thread::Threads;

// Answers all pieces by so many workers, each of which has a run of slots.
pub fn answer_all<R: Threads + Wait + Sync, G: Gate + Sync>(
    rt: &R,
    alloc: Global,
    bytes: &[u8],
    asked: Asked,
    shared: &Mutex<Catalogue>,
    gate: &G,
    slots: &mut [Slot],
)
    requires workers { 1 ≤ asked.workers }
    requires budget { (1 ≤ asked.budget) × (asked.budget ≤ most_budget) }
    requires some { 0 < length slots.old }
    requires within { All (λ s. IsWithin (length bytes.now) s.piece) slots.old }
    ensures { AnswersEach asked.budget bytes.now slots.old slots.new }
{
    let size = slots.len().div_ceil(asked.workers as usize);
    let budget = asked.budget;
    thread::for_each_chunk_mut(
        rt,
        slots,
        size,
        &|start, run| { work(rt, alloc, bytes, budget, shared, gate, start / size, run) },
    );
}

// Answers the pieces of a run of slots. The worker passes the gate before each piece and once after the last.
fn work<R: Wait, G: Gate>(
    rt: &R,
    alloc: Global,
    bytes: &[u8],
    budget: u64,
    shared: &Mutex<Catalogue>,
    gate: &G,
    worker: usize,
    run: &mut [Slot],
)
    requires budget { (1 ≤ budget) × (budget ≤ most_budget) }
    requires within { All (λ s. IsWithin (length bytes.now) s.piece) run.old }
    ensures { AnswersEach budget bytes.now run.old run.new }
{
    let hand = (worker as u64).saturating_add(1);
    for k in 0..run.len() {
        gate.pass(hand, k as u64);
        answer(rt, alloc, bytes, budget, shared, &mut run[k]);
    }
    gate.pass(hand, run.len() as u64);
}

fn answer<R: Wait>(
    rt: &R,
    alloc: Global,
    bytes: &[u8],
    budget: u64,
    shared: &Mutex<Catalogue>,
    slot: &mut Slot,
)
    requires budget { (1 ≤ budget) × (budget ≤ most_budget) }
    requires within { IsWithin (length bytes.now) slot.old.piece }
    ensures { Answers budget bytes.now slot.old slot.new }
{
    let piece = slot.piece;
    slot.reply = reply_to(rt, alloc, &bytes[piece.from..piece.to], budget, shared);
}

// What answers a piece, or nothing where memory runs out.
fn reply_to<R: Wait>(
    rt: &R,
    alloc: Global,
    piece: &[u8],
    budget: u64,
    shared: &Mutex<Catalogue>,
) -> Option<Told>
    requires { (1 ≤ budget) × (budget ≤ most_budget) }
    ensures { IfSome result (TellsReplyTo budget piece.now) }
{
    match told_for(rt, alloc, piece, budget, shared) {
        Ok(told) => Some(told),
        Err(NoMemory) => None,
    }
}

fn told_for<R: Wait>(
    rt: &R,
    alloc: Global,
    piece: &[u8],
    budget: u64,
    shared: &Mutex<Catalogue>,
) -> Result<Told, NoMemory>
    requires { (1 ≤ budget) × (budget ≤ most_budget) }
    ensures { IfOk result (TellsReplyTo budget piece.now) }
{
    match read_tree(alloc, piece) {
        Ok(tree) => design_for(rt, alloc, tree, budget, shared),
        Err(ReadTree::Fault(fault)) => told_fault(alloc, fault),
        Err(ReadTree::NoMemory) => Err(NoMemory),
    }
}

// The design that the catalogue has for the tree, or a new one, which is then put there. No lock is held while it is made or told.
fn design_for<R: Wait>(
    rt: &R,
    alloc: Global,
    tree: Tree,
    budget: u64,
    shared: &Mutex<Catalogue>,
) -> Result<Told, NoMemory>
    requires { (1 ≤ budget) × (budget ≤ most_budget) }
    ensures { IfOk result (λ t. (D : AnyDocument) × (D.tree ≡ tree) × IsRight budget D × IsTold (Designed D) t) }
{
    if let Some(document) = found(rt, alloc, &tree, budget, shared)? {
        return told_design(alloc, &document);
    }
    let document = design_tree(alloc, tree, budget)?;
    let told = told_design(alloc, &document)?;
    keep(rt, document, budget, shared)?;
    Ok(told)
}

fn found<R: Wait>(
    rt: &R,
    alloc: Global,
    tree: &Tree,
    budget: u64,
    shared: &Mutex<Catalogue>,
) -> Result<Option<Document>, NoMemory>
    ensures { IfOk result (λ found. MatchOption found (Unit {0}) (λ D. (D.tree ≡ tree.now) × IsRight budget D)) }
{
    shared.lock(rt).find(alloc, tree, budget)
}

fn keep<R: Wait>(
    rt: &R,
    document: Document,
    budget: u64,
    shared: &Mutex<Catalogue>,
) -> Result<(), NoMemory>
    requires { IsRight budget document }
{
    shared.lock(rt).add(document, budget)?;
    Ok(())
}
