ghost use Rattle.std.specs.Prelude.{◌≡◌, [], ◌∷◌, ◌++◌, decimal};
ghost use Rattle.bp_base.specs.Causes.{HasCause};
ghost use Rattle.bp_base.specs.Tree.{IsEdge, IsNode, name_of};
ghost use Rattle.bp_text.specs.Puts.{Puts};
ghost use Rattle.bp_tree.specs.Text.{TreeOf, tree_line, tree_text};

use bp_base::{Failed, Sink, Tree};
use bp_text::{Digits, put_parts};

/// Writes the canonical text of a tree. After `Failed` a prefix of it was appended.
pub fn write_tree<K: Sink>(tree: &Tree, sink: &mut K) -> Result<(), Failed>
    ensures text { Puts (K.held sink.old) (K.held sink.new) result (tree_text tree.now) }
    ensures reads_back { TreeOf (tree_text tree.now) tree.now }
    ensures cause { HasCause (K.faults sink.old) (K.faults sink.new) result }
{
    for edge in 1..tree.parents().len() as u64 {
        write_edge(tree, edge, sink)?;
    }
    Ok(())
}

fn write_edge<K: Sink>(tree: &Tree, edge: u64, sink: &mut K) -> Result<(), Failed>
    requires { IsEdge tree.now edge }
    ensures text { Puts (K.held sink.old) (K.held sink.new) result (tree_line tree.now edge) }
    ensures cause { HasCause (K.faults sink.old) (K.faults sink.new) result }
{
    let parent = tree.parents()[edge as usize];
    let length = tree.lengths()[edge as usize];
    put_line(sink, name_at(tree, parent), name_at(tree, edge), length)
}

fn put_line<K: Sink>(sink: &mut K, upper: &[u8], lower: &[u8], length: u64) -> Result<(), Failed>
    ensures text { Puts (K.held sink.old) (K.held sink.new) result (upper.now ++ 32 ∷ lower.now ++ 32 ∷ decimal length ++ 10 ∷ []) }
    ensures cause { HasCause (K.faults sink.old) (K.faults sink.new) result }
{
    let mut digits = Digits::new();
    put_parts(sink, &[upper, b" ", lower, b" ", digits.of(length), b"\n"])
}

fn name_at(tree: &Tree, node: u64) -> &[u8]
    requires { IsNode tree.now node }
    ensures { result.now ≡ name_of tree.now node }
{
    tree.names()[node as usize].bytes()
}
