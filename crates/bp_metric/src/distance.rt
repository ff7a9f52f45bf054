// Distances of nodes, by climbing.
ghost use Rattle.std.specs.Prelude.{not, filter, ◌≡◌, ◌<◌, ◌≤◌, ◌++◌, ◌∷◌, [], IfOk, OnOk};
ghost use Rattle.bp_base.specs.Tree.{has_child, leaf_nodes, node_count};
ghost use Rattle.bp_metric.specs.Distance.{dist, is_below, most_distance};

use bp_base::{NoMemory, Tree};
use std::alloc::Global;

// The nodes without children, in order.
pub fn leaves_of(alloc: Global, tree: &Tree) -> Result<Vec<u64>, NoMemory>
    ensures { IfOk result (λ v. v.items ≡ leaf_nodes tree.now) }
{
    let mut leaves = Vec::new(alloc);
    for node in 0..tree.parents().len() as u64 {
        add_if_leaf(&mut leaves, tree, node)?;
    }
    Ok(leaves)
}

// Adds the node where it has no children.
fn add_if_leaf(leaves: &mut Vec<u64>, tree: &Tree, node: u64) -> Result<(), NoMemory>
    ensures { OnOk result (leaves.new.items ≡ leaves.old.items ++ filter (λ k. not (has_child tree.now k)) (node ∷ [])) }
{
    if is_leaf(tree, node) {
        leaves.push(node)?;
    }
    Ok(())
}

fn is_leaf(tree: &Tree, node: u64) -> bool
    ensures { result ≡ not (has_child tree.now node) }
{
    !tree.parents()[1..].contains(&node)
}

// Whether a node is below an edge: the edge's lower node is on its way to the root.
pub fn is_below(tree: &Tree, node: u64, edge: u64) -> bool
    requires node { node < node_count tree.now }
    requires edge { 1 ≤ edge }
    ensures { result ≡ is_below tree.now node edge }
{
    let parents = tree.parents();
    let mut node = node;
    while node > edge {
        node = parents[node as usize];
    }
    node == edge
}

// The greater of two nodes is below no edge of the other, so the sum of the edges passed is the distance.
pub fn distance(tree: &Tree, a: u64, b: u64) -> u64
    requires a { a < node_count tree.now }
    requires b { b < node_count tree.now }
    ensures value { result ≡ dist tree.now a b }
    ensures small { result ≤ most_distance }
{
    let parents = tree.parents();
    let lengths = tree.lengths();
    let mut a = a;
    let mut b = b;
    let mut sum = 0;
    while a != b {
        if b < a {
            sum += lengths[a as usize];
            a = parents[a as usize];
        } else {
            sum += lengths[b as usize];
            b = parents[b as usize];
        }
    }
    sum
}
