// The lines of the points, in leaf order.
ghost use Rattle.std.specs.Prelude.{◌≡◌, ◌≤◌, ◌+◌, ◌<◌, ◌++◌, ◌∷◌, [], false, length, not, slice_index_or, IfOk, if◌then◌else◌};
ghost use Rattle.bp_base.specs.Causes.{HasCause};
ghost use Rattle.bp_base.specs.Point.{origin};
ghost use Rattle.bp_base.specs.Tree.{has_child, leaf_count, name_of, node_count};
ghost use Rattle.bp_document.specs.Lines.{point_line};
ghost use Rattle.bp_document.specs.Text.{point_lines};
ghost use Rattle.bp_text.specs.Puts.{Puts};

use crate::line::{name_at, put_point};
use bp_base::{Failed, Point, Sink, Tree};

/// A line for each leaf. Leaves are counted on the way, so that no list of them is needed.
pub fn put_points<K: Sink>(sink: &mut K, tree: &Tree, points: &[Point]) -> Result<(), Failed>
    requires { length points.now ≡ leaf_count tree.now }
    ensures text { Puts (K.held sink.old) (K.held sink.new) result (point_lines tree.now points.now) }
    ensures cause { HasCause (K.faults sink.old) (K.faults sink.new) result }
{
    let mut leaves = 0;
    for node in 0..tree.parents().len() as u64 {
        leaves = put_if_leaf(sink, tree, points, node, leaves)?;
    }
    Ok(())
}

// The line of a node where it is a leaf; how many leaves there are then.
fn put_if_leaf<K: Sink>(
    sink: &mut K,
    tree: &Tree,
    points: &[Point],
    node: u64,
    leaves: usize,
) -> Result<usize, Failed>
    requires node { node < node_count tree.now }
    requires point { has_child tree.now node ≡ false → leaves < length points.now }
    ensures text { Puts (K.held sink.old) (K.held sink.new) result (if has_child tree.now node then [] else point_line (name_of tree.now node) (slice_index_or points.now leaves origin)) }
    ensures cause { HasCause (K.faults sink.old) (K.faults sink.new) result }
    ensures count { IfOk result (λ k. k ≡ (if has_child tree.now node then leaves else leaves + 1)) }
{
    if has_child(tree, node) {
        return Ok(leaves);
    }
    put_point(sink, name_at(tree, node), points[leaves])?;
    Ok(leaves + 1)
}

pub fn has_child(tree: &Tree, node: u64) -> bool
    ensures { result ≡ has_child tree.now node }
{
    tree.parents()[1..].contains(&node)
}
