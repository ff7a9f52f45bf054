// The lines of a refutation's nodes, in preorder.
ghost use Rattle.std.specs.Prelude.{◌≡◌, ◌+◌, ◌≤◌, ◌++◌, ◌∷◌, [], decimal, codes, map};
ghost use Rattle.std.specs.List.{flat_map};
ghost use Rattle.bp_base.specs.Causes.{HasCause};
ghost use Rattle.bp_base.specs.Limits.{most_steps};
ghost use Rattle.bp_document.specs.Lines.{axis_word, closed_line, line, open_line, word};
ghost use Rattle.bp_document.specs.Ranges.{depth_of};
ghost use Rattle.bp_document.specs.Text.{node_lines};
ghost use Rattle.bp_text.specs.Puts.{Puts};

use crate::line::{axis_word, put_chain, put_split};
use bp_base::{Axis, Chain, Claim, Failed, Refutation, Sink};
use bp_text::{put, put_parts};
use itoa::Buffer;

// A line for each node in preorder, the first at this depth.
pub fn put_node<K: Sink>(sink: &mut K, node: &Refutation, depth: u64) -> Result<(), Failed>
    requires { depth + depth_of node.now ≤ most_steps }
    ensures text { Puts (K.held sink.old) (K.held sink.new) result (node_lines node.now depth) }
    ensures cause { HasCause (K.faults sink.old) (K.faults sink.new) result }
{
    match node {
        Refutation::Split { pair, children } => {
            put_split(sink, depth, *pair)?;
            for child in children.as_slice() {
                put_node(sink, child, depth + 1)?;
            }
            Ok(())
        }
        Refutation::Closed { claim } => put_closed(sink, depth, claim),
        Refutation::Open { claim } => put_open(sink, depth, claim),
    }
}

fn put_closed<K: Sink>(sink: &mut K, depth: u64, claim: &Claim) -> Result<(), Failed>
    ensures text { Puts (K.held sink.old) (K.held sink.new) result (closed_line depth claim.now) }
    ensures cause { HasCause (K.faults sink.old) (K.faults sink.new) result }
{
    match claim {
        Claim::Walk { axis, chain } => put_claim(sink, depth, b"walk", *axis, chain),
        Claim::Cycle { axis, chain } => put_claim(sink, depth, b"cycle", *axis, chain),
    }
}

fn put_open<K: Sink>(sink: &mut K, depth: u64, claim: &Claim) -> Result<(), Failed>
    ensures text { Puts (K.held sink.old) (K.held sink.new) result (open_line depth claim.now) }
    ensures cause { HasCause (K.faults sink.old) (K.faults sink.new) result }
{
    match claim {
        Claim::Walk { axis, chain } => put_claim(sink, depth, b"open", *axis, chain),
        Claim::Cycle { axis, chain } => put_open_cycle(sink, depth, *axis, chain),
    }
}

#[tactic(auto, unfolding(crate::specs::Lines::line))]
fn put_open_cycle<K: Sink>(
    sink: &mut K,
    depth: u64,
    axis: Axis,
    chain: &Chain,
) -> Result<(), Failed>
    ensures text { Puts (K.held sink.old) (K.held sink.new) result (line (decimal depth) (codes "open" ∷ codes "cycle" ∷ axis_word axis ∷ map decimal chain.now)) }
    ensures cause { HasCause (K.faults sink.old) (K.faults sink.new) result }
{
    put_claim(sink, depth, b"open cycle", axis, chain)
}

fn put_claim<K: Sink>(
    sink: &mut K,
    depth: u64,
    kind: &[u8],
    axis: Axis,
    chain: &Chain,
) -> Result<(), Failed>
    ensures text { Puts (K.held sink.old) (K.held sink.new) result (line (decimal depth) (kind.now ∷ axis_word axis ∷ map decimal chain.now)) }
    ensures cause { HasCause (K.faults sink.old) (K.faults sink.new) result }
{
    put_claim_line(sink, depth, kind, axis_word(axis), chain)
}

fn put_claim_line<K: Sink>(
    sink: &mut K,
    depth: u64,
    kind: &[u8],
    axis: &[u8],
    chain: &Chain,
) -> Result<(), Failed>
    ensures text { Puts (K.held sink.old) (K.held sink.new) result (line (decimal depth) (kind.now ∷ axis.now ∷ map decimal chain.now)) }
    ensures cause { HasCause (K.faults sink.old) (K.faults sink.new) result }
{
    put_claim_start(sink, depth, kind, axis)?;
    put_chain(sink, chain)?;
    put(sink, b"\n")
}

fn put_claim_start<K: Sink>(
    sink: &mut K,
    depth: u64,
    kind: &[u8],
    axis: &[u8],
) -> Result<(), Failed>
    ensures text { Puts (K.held sink.old) (K.held sink.new) result (decimal depth ++ word kind.now ++ word axis.now) }
    ensures cause { HasCause (K.faults sink.old) (K.faults sink.new) result }
{
    let mut buffer = Buffer::new();
    let depth = buffer.format(depth).as_bytes();
    put_parts(sink, &[depth, b" ", kind, b" ", axis])
}
