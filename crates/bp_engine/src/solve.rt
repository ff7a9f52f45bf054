// `solve`: the smallest sheet for a tree, by lemmas.
ghost use Rattle.std.specs.Prelude.{◌≡◌, ◌⊎◌, IfOk, IsFalse, IsTrue};
ghost use Rattle.bp_base.specs.Causes.{Rose};
ghost use Rattle.bp_solve.specs.Solved.{IsSolved};
ghost use Rattle.bp_engine.specs.Outcomes.{HasSheet};
ghost use Rattle.bp_engine.specs.Run.{IsSilent};
ghost use Rattle.bp_engine.specs.Solves.{Solves, WritesSolved, placed};
ghost use Rattle.bp_engine.specs.Texts.{MayWrite};

use crate::Status;
use crate::design::Asked;
use crate::given::given_tree;
use crate::outcome::write_outcome;
use bp_base::{NoMemory, Sink, Source, Tree};
use bp_certificate::Certificate;
use bp_document::Document;
use bp_metric::Metric;
use bp_solve::Solved;
use std::alloc::Global;

// Reads the tree, and writes its certificate, and behind it the drawing of its regions where one is asked for.
pub fn solve<T: Source, K: Sink, F: Sink>(
    alloc: Global,
    asked: Asked,
    source: &mut T,
    out: &mut K,
    fold: &mut F,
) -> Status
    requires { HasSheet asked }
    ensures solves { Solves asked (T.left source.old) (T.left source.new) (record { out = K.held out.old; fold = F.held fold.old }) (record { out = K.held out.new; fold = F.held fold.new }) result }
    ensures unwritten { (MayWrite result → ⊥) → (out.new ≡ out.old) × (fold.new ≡ fold.old) }
    ensures undrawn { IsFalse asked.draws → fold.new ≡ fold.old }
    ensures whole { result ≡ Status.WriteFault → (fold.new ≡ fold.old) ⊎ Rose (F.faults fold.old) (F.faults fold.new) }
    ensures loud { IsSilent result → ⊥ }
    ensures read { result ≡ Status.ReadFault → Rose (T.faults source.old) (T.faults source.new) }
    ensures write { result ≡ Status.WriteFault → Rose (K.faults out.old) (K.faults out.new) ⊎ (IsTrue asked.draws × Rose (F.faults fold.old) (F.faults fold.new)) }
{
    match given_tree(alloc, source) {
        Ok(tree) => write_solved(alloc, asked, &tree, out, fold),
        Err(status) => status,
    }
}

// The same for the tree.
fn write_solved<K: Sink, F: Sink>(
    alloc: Global,
    asked: Asked,
    tree: &Tree,
    out: &mut K,
    fold: &mut F,
) -> Status
    requires { HasSheet asked }
    ensures solves { WritesSolved tree.now asked (record { out = K.held out.old; fold = F.held fold.old }) (record { out = K.held out.new; fold = F.held fold.new }) result }
    ensures unwritten { (MayWrite result → ⊥) → (out.new ≡ out.old) × (fold.new ≡ fold.old) }
    ensures undrawn { IsFalse asked.draws → fold.new ≡ fold.old }
    ensures whole { result ≡ Status.WriteFault → (fold.new ≡ fold.old) ⊎ Rose (F.faults fold.old) (F.faults fold.new) }
    ensures loud { IsSilent result → ⊥ }
    ensures no_read { result ≡ Status.ReadFault → ⊥ }
    ensures write { result ≡ Status.WriteFault → Rose (K.faults out.old) (K.faults out.new) ⊎ (IsTrue asked.draws × Rose (F.faults fold.old) (F.faults fold.new)) }
{
    match solved(alloc, asked, tree) {
        Ok(answer) => {
            let text = answer.text.into_vec();
            let document = placed(answer.certificate);
            write_outcome(alloc, asked.draws, text, document, out, fold)
        }
        Err(NoMemory) => Status::NoMemory,
    }
}

fn solved(alloc: Global, asked: Asked, tree: &Tree) -> Result<Solved, NoMemory>
    requires { HasSheet asked }
    ensures { IfOk result (λ s. IsSolved tree.now asked.sheet asked.budget s) }
{
    let metric = Metric::on(alloc, tree, asked.sheet)?;
    bp_solve::solve(alloc, &metric, asked.budget)
}

// The certificate's placement as a document, without its lemmas.
fn placed(certificate: Certificate) -> Document
    ensures { result ≡ placed certificate }
{
    Document {
        tree: certificate.tree,
        side: certificate.side,
        bound: certificate.bound,
        points: certificate.points,
        floor: certificate.floor,
        proof: None,
        sheet: certificate.sheet,
    }
}
