// `design`: the smallest sheet for a tree.
ghost use Rattle.std.specs.Prelude.{◌≡◌, ◌⊎◌, ℕ, List, IfErr, IfOk, IsFalse, IsTrue, Some, false};
ghost use Rattle.bp_base.specs.Causes.{Rose};
ghost use Rattle.bp_base.specs.Tree.{TreeValue};
ghost use Rattle.bp_metric.specs.Stated.{CoversStated};
ghost use Rattle.bp_tree.specs.Text.{TreeOf};
ghost use Rattle.bp_document.specs.Text.{doc_text};
ghost use Rattle.bp_engine.specs.Designs.{Designs, HasNone, IsDesignBy, IsDesigned, WritesDesign};
ghost use Rattle.bp_engine.specs.Outcomes.{IsAsked};
ghost use Rattle.bp_engine.specs.Run.{IsEnough, IsSilent};
ghost use Rattle.bp_engine.specs.Texts.{MayWrite};

use crate::Status;
use crate::given::given_tree;
use crate::outcome::write_outcome;
use crate::text::document_text;
use bp_base::{Gate, NoMemory, Sheet, Sink, Source, Tree};
use bp_design::{SteadyDesign, replayed, steadied};
use bp_document::Document;
use bp_metric::Metric;
use std::alloc::Global;
use std::thread::Threads;

// What is asked of a design: its sheet, how many branches its search may examine, by how many hands, whether it replays by a seed,
// whether its regions are drawn, and how many paths the searches of the steady answer may examine, where that is wanted.
#[derive(Clone, Copy)]
pub struct Asked {
    pub sheet: Sheet,
    pub budget: u64,
    pub hands: u64,
    // the seed of a search that replays
    pub replay: Option<u64>,
    pub draws: bool,
    // the budget of the steady answer
    pub steady: Option<u64>,
}

// Reads the tree, and writes its document, and behind it the drawing of its regions where one is asked for.
pub fn design<R: Threads + Sync, T: Source, K: Sink, F: Sink, G: Gate + Sync>(
    rt: &R,
    alloc: Global,
    asked: Asked,
    source: &mut T,
    out: &mut K,
    fold: &mut F,
    gate: &G,
) -> Status
    requires { IsAsked asked }
    ensures designs { Designs asked (T.left source.old) (T.left source.new) (record { out = K.held out.old; fold = F.held fold.old }) (record { out = K.held out.new; fold = F.held fold.new }) result }
    ensures covered { (b : List ℕ) (U : TreeValue) → T.left source.old ≡ Some b → TreeOf b U → CoversStated U asked.sheet asked.budget → (side bound : ℕ) → result ≡ Status.GaveUp side bound → ⊥ }
    ensures enough { (b : List ℕ) (U : TreeValue) → T.left source.old ≡ Some b → TreeOf b U → IsEnough U asked.sheet asked.steady → (quota : ℕ) → result ≡ Status.Unsteady quota → ⊥ }
    ensures unwritten { (MayWrite result → ⊥) → (out.new ≡ out.old) × (fold.new ≡ fold.old) }
    ensures undrawn { IsFalse asked.draws → fold.new ≡ fold.old }
    ensures whole { result ≡ Status.WriteFault → (fold.new ≡ fold.old) ⊎ Rose (F.faults fold.old) (F.faults fold.new) }
    ensures loud { IsSilent result → ⊥ }
    ensures read { result ≡ Status.ReadFault → Rose (T.faults source.old) (T.faults source.new) }
    ensures write { result ≡ Status.WriteFault → Rose (K.faults out.old) (K.faults out.new) ⊎ (IsTrue asked.draws × Rose (F.faults fold.old) (F.faults fold.new)) }
{
    match given_tree(alloc, source) {
        Ok(tree) => write_design(rt, alloc, asked, &tree, out, fold, gate),
        Err(status) => status,
    }
}

// The same for the tree.
fn write_design<R: Threads + Sync, K: Sink, F: Sink, G: Gate + Sync>(
    rt: &R,
    alloc: Global,
    asked: Asked,
    tree: &Tree,
    out: &mut K,
    fold: &mut F,
    gate: &G,
) -> Status
    requires { IsAsked asked }
    ensures enough { IsEnough tree.now asked.sheet asked.steady → (quota : ℕ) → result ≡ Status.Unsteady quota → ⊥ }
    ensures designs { WritesDesign tree.now asked (record { out = K.held out.old; fold = F.held fold.old }) (record { out = K.held out.new; fold = F.held fold.new }) result }
    ensures covered { CoversStated tree.now asked.sheet asked.budget → (side bound : ℕ) → result ≡ Status.GaveUp side bound → ⊥ }
    ensures unwritten { (MayWrite result → ⊥) → (out.new ≡ out.old) × (fold.new ≡ fold.old) }
    ensures undrawn { IsFalse asked.draws → fold.new ≡ fold.old }
    ensures whole { result ≡ Status.WriteFault → (fold.new ≡ fold.old) ⊎ Rose (F.faults fold.old) (F.faults fold.new) }
    ensures loud { IsSilent result → ⊥ }
    ensures no_read { result ≡ Status.ReadFault → ⊥ }
    ensures write { result ≡ Status.WriteFault → Rose (K.faults out.old) (K.faults out.new) ⊎ (IsTrue asked.draws × Rose (F.faults fold.old) (F.faults fold.new)) }
{
    match document_for(rt, alloc, asked, tree, gate) {
        Ok(document) => write_document_of(alloc, asked, document, tree, out, fold),
        Err(status) => status,
    }
}

// Writes the design.
fn write_document_of<K: Sink, F: Sink>(
    alloc: Global,
    asked: Asked,
    document: Document,
    _tree: &Tree,
    out: &mut K,
    fold: &mut F,
) -> Status
    requires asked { IsAsked asked }
    requires design { IsDesigned _tree.now asked document }
    ensures steady { (quota : ℕ) → result ≡ Status.Unsteady quota → ⊥ }
    ensures designs { WritesDesign _tree.now asked (record { out = K.held out.old; fold = F.held fold.old }) (record { out = K.held out.new; fold = F.held fold.new }) result }
    ensures covered { CoversStated _tree.now asked.sheet asked.budget → (side bound : ℕ) → result ≡ Status.GaveUp side bound → ⊥ }
    ensures unwritten { (MayWrite result → ⊥) → (out.new ≡ out.old) × (fold.new ≡ fold.old) }
    ensures undrawn { IsFalse asked.draws → fold.new ≡ fold.old }
    ensures whole { result ≡ Status.WriteFault → (fold.new ≡ fold.old) ⊎ Rose (F.faults fold.old) (F.faults fold.new) }
    ensures loud { IsSilent result → ⊥ }
    ensures no_read { result ≡ Status.ReadFault → ⊥ }
    ensures write { result ≡ Status.WriteFault → Rose (K.faults out.old) (K.faults out.new) ⊎ (IsTrue asked.draws × Rose (F.faults fold.old) (F.faults fold.new)) }
{
    match document_text(alloc, &document) {
        Ok(text) => write_outcome(alloc, asked.draws, text, document, out, fold),
        Err(NoMemory) => Status::NoMemory,
    }
}

// The design that is asked for, or the status where there is none.
fn document_for<R: Threads + Sync, G: Gate + Sync>(
    rt: &R,
    alloc: Global,
    asked: Asked,
    tree: &Tree,
    gate: &G,
) -> Result<Document, Status>
    requires { IsAsked asked }
    ensures design { IfOk result (λ D. IsDesigned tree.now asked D) }
    ensures none { IfErr result (λ s. HasNone tree.now asked s) }
{
    let Ok(metric) = Metric::on(alloc, tree, asked.sheet) else {
        return Err(Status::NoMemory);
    };
    match searched(rt, alloc, asked, &metric, gate) {
        Ok(document) => answered(alloc, asked, &metric, document),
        Err(NoMemory) => Err(Status::NoMemory),
    }
}

// The design without the steady answer.
fn searched<R: Threads + Sync, G: Gate + Sync>(
    rt: &R,
    alloc: Global,
    asked: Asked,
    metric: &Metric,
    gate: &G,
) -> Result<Document, NoMemory>
    requires asked { IsAsked asked }
    requires sheet { metric.now.sheet ≡ asked.sheet }
    ensures { IfOk result (λ D. IsDesignBy metric.now.tree asked false D) }
{
    if let Some(seed) = asked.replay {
        let document = replayed(alloc, metric, asked.hands, asked.budget, seed)?;
        return Ok(document);
    }
    let document = bp_design::design(rt, alloc, metric, asked.hands, asked.budget, gate)?;
    Ok(document)
}

// The same with the steady points, where they are asked for.
fn answered(
    alloc: Global,
    asked: Asked,
    metric: &Metric,
    document: Document,
) -> Result<Document, Status>
    requires design { IsDesignBy metric.now.tree asked false document }
    requires sheet { metric.now.sheet ≡ asked.sheet }
    ensures design { IfOk result (λ D. IsDesigned metric.now.tree asked D) }
    ensures none { IfErr result (λ s. HasNone metric.now.tree asked s) }
{
    let Some(budget) = asked.steady else {
        return Ok(document);
    };
    match steadied(alloc, metric, document, budget) {
        Ok(SteadyDesign::Found(document)) => Ok(document),
        Ok(SteadyDesign::Unsteady) => Err(Status::Unsteady { budget }),
        Err(NoMemory) => Err(Status::NoMemory),
    }
}
