// `made`: a tree for tests.
ghost use Rattle.std.specs.Prelude.{◌≡◌, ◌⊎◌, ◌<◌, ◌≤◌, ◌^◌};
ghost use Rattle.bp_base.specs.Causes.{Appends, AppendsFront, Rose};
ghost use Rattle.bp_tree.specs.Text.{tree_text};
ghost use Rattle.bp_engine.specs.Making.{Makes};
ghost use Rattle.bp_engine.specs.Run.{IsSilent};
ghost use Rattle.bp_engine.specs.Texts.{MayWrite};

use crate::Status;
use bp_base::{Failed, NoMemory, Sink, Tree};
use bp_made::made_tree;
use bp_tree::write_tree;
use std::alloc::Global;

// Writes the text of the tree of so many leaves that the generator makes from this seed.
pub fn make<K: Sink>(alloc: Global, leaves: u64, seed: u64, out: &mut K) -> Status
    requires leaves { (2 ≤ leaves) × (leaves ≤ 16) }
    requires seed { seed < 2 ^ 32 }
    ensures makes { Makes leaves seed (K.held out.old) (K.held out.new) result }
    ensures unwritten { (MayWrite result → ⊥) → out.new ≡ out.old }
    ensures ends { MayWrite result ⊎ (result ≡ Status.NoMemory) }
    ensures write { result ≡ Status.WriteFault → Rose (K.faults out.old) (K.faults out.new) }
{
    match made_tree(alloc, leaves, seed) {
        Ok(tree) => write_made(&tree, out),
        Err(NoMemory) => Status::NoMemory,
    }
}

fn write_made<K: Sink>(tree: &Tree, out: &mut K) -> Status
    ensures text { ((result ≡ Status.Done) × Appends (K.held out.old) (K.held out.new) (tree_text tree.now)) ⊎ ((result ≡ Status.WriteFault) × AppendsFront (K.held out.old) (K.held out.new) (tree_text tree.now)) }
    ensures ends { MayWrite result }
    ensures write { result ≡ Status.WriteFault → Rose (K.faults out.old) (K.faults out.new) }
{
    match write_tree(tree, out) {
        Ok(()) => Status::Done,
        Err(Failed) => Status::WriteFault,
    }
}
