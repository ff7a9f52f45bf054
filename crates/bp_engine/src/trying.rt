// `trial`: a made tree is designed, and its placement settled.
ghost use Rattle.std.specs.Prelude.{◌≡◌, ◌⊎◌, ◌<◌, ◌≤◌, ◌^◌, ◌++◌, IfOk, OnOk};
ghost use Rattle.bp_base.specs.Causes.{Appends, AppendsFront, Rose};
ghost use Rattle.bp_engine.specs.Run.{IsSilent};
ghost use Rattle.bp_engine.specs.Texts.{MayWrite};
ghost use Rattle.bp_engine.specs.Trials.{IsTrialText, Tries, across_part, found_line, head_line, settled_line, upright_part};

use crate::Status;
use crate::drawing::{add, add_numbered};
use bp_base::{Failed, NoMemory, Sink};
use bp_design::counted_replay;
use bp_made::made_tree;
use bp_metric::Metric;
use bp_tally::{Counts, settled_tally};
use bp_text::put;
use std::alloc::Global;

// Writes the three lines of the trial of the tree of so many leaves that the generator makes from this seed.
pub fn try_made<K: Sink>(alloc: Global, leaves: u64, seed: u64, out: &mut K) -> Status
    requires leaves { (2 ≤ leaves) × (leaves ≤ 16) }
    requires seed { seed < 2 ^ 32 }
    ensures tries { Tries leaves seed (K.held out.old) (K.held out.new) result }
    ensures unwritten { (MayWrite result → ⊥) → out.new ≡ out.old }
    ensures ends { MayWrite result ⊎ (result ≡ Status.NoMemory) }
    ensures write { result ≡ Status.WriteFault → Rose (K.faults out.old) (K.faults out.new) }
{
    match trial_text(alloc, leaves, seed) {
        Ok(text) => write_trial(&text, out),
        Err(NoMemory) => Status::NoMemory,
    }
}

fn write_trial<K: Sink>(text: &[u8], out: &mut K) -> Status
    ensures text { ((result ≡ Status.Done) × Appends (K.held out.old) (K.held out.new) text.now) ⊎ ((result ≡ Status.WriteFault) × AppendsFront (K.held out.old) (K.held out.new) text.now) }
    ensures ends { MayWrite result }
    ensures write { result ≡ Status.WriteFault → Rose (K.faults out.old) (K.faults out.new) }
{
    match put(out, text) {
        Ok(()) => Status::Done,
        Err(Failed) => Status::WriteFault,
    }
}

fn trial_text(alloc: Global, leaves: u64, seed: u64) -> Result<Vec<u8>, NoMemory>
    requires leaves { (2 ≤ leaves) × (leaves ≤ 16) }
    requires seed { seed < 2 ^ 32 }
    ensures { IfOk result (λ v. IsTrialText leaves seed v.items) }
{
    let tree = made_tree(alloc, leaves, seed)?;
    let metric = Metric::of(alloc, &tree)?;
    let counted = counted_replay(alloc, &metric, 4, 50_000, seed)?;
    let examined = counted.examined;
    let document = counted.document;
    let side = document.side;
    let bound = document.bound;
    let counts = settled_tally(&metric, side, document.points);
    let text = trial_lines(alloc, leaves, seed, side, bound, examined, counts)?;
    Ok(text)
}

fn trial_lines(
    alloc: Global,
    leaves: u64,
    seed: u64,
    side: u64,
    bound: u64,
    examined: u64,
    counts: Counts,
) -> Result<Vec<u8>, NoMemory>
    ensures { IfOk result (λ v. v.items ≡ head_line leaves seed ++ found_line side bound examined ++ settled_line counts) }
{
    let mut text = Vec::new(alloc);
    add_head(&mut text, leaves, seed)?;
    add_found(&mut text, side, bound, examined)?;
    add_settled(&mut text, counts)?;
    Ok(text)
}

#[tactic(auto, unfolding(crate::specs::Trials::head_line))]
fn add_head(text: &mut Vec<u8>, leaves: u64, seed: u64) -> Result<(), NoMemory>
    ensures { OnOk result (text.new.items ≡ text.old.items ++ head_line leaves seed) }
{
    add_numbered(text, b"trial ", leaves)?;
    add_numbered(text, b" ", seed)?;
    add(text, b"\n")
}

#[tactic(auto, unfolding(crate::specs::Trials::found_line))]
fn add_found(text: &mut Vec<u8>, side: u64, bound: u64, examined: u64) -> Result<(), NoMemory>
    ensures { OnOk result (text.new.items ≡ text.old.items ++ found_line side bound examined) }
{
    add_numbered(text, b"side ", side)?;
    add_numbered(text, b" bound ", bound)?;
    add_numbered(text, b" examined ", examined)?;
    add(text, b"\n")
}

#[tactic(auto, unfolding(crate::specs::Trials::settled_line))]
fn add_settled(text: &mut Vec<u8>, counts: Counts) -> Result<(), NoMemory>
    ensures { OnOk result (text.new.items ≡ text.old.items ++ settled_line counts) }
{
    add(text, b"settled")?;
    add_across(text, counts.left, counts.right)?;
    add_upright(text, counts.below, counts.above)
}

#[tactic(auto, unfolding(crate::specs::Trials::across_part))]
fn add_across(text: &mut Vec<u8>, left: u64, right: u64) -> Result<(), NoMemory>
    ensures { OnOk result (text.new.items ≡ text.old.items ++ across_part left right) }
{
    add_numbered(text, b" left ", left)?;
    add_numbered(text, b" right ", right)?;
    add(text, b" ")
}

#[tactic(auto, unfolding(crate::specs::Trials::upright_part))]
fn add_upright(text: &mut Vec<u8>, below: u64, above: u64) -> Result<(), NoMemory>
    ensures { OnOk result (text.new.items ≡ text.old.items ++ upright_part below above) }
{
    add_numbered(text, b"below ", below)?;
    add_numbered(text, b" above ", above)?;
    add(text, b"\n")
}
