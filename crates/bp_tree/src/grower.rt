ghost use Rattle.std.specs.Prelude.{◌≡◌, ◌<◌, ◌≤◌, ◌↔◌, [], IsTrue, OnErr, IfOk, MatchOption, Contains, length, slice_index_or};
ghost use Rattle.bp_base.specs.Name.{IsName};
ghost use Rattle.bp_tree.specs.Edges.{IsGrowing, IsLength};
ghost use Rattle.bp_tree.specs.Calls.{with_node, FindsParent};
ghost use Rattle.bp_tree.specs.Growing.{AddsEdge, Finishes, no_nodes};

use crate::leaves::{leaf_count, root_children};
use crate::{Edge, TreeKind};
use bp_base::{MOST_LEAVES, MOST_NODES, Name, NoMemory, Tree};
use std::alloc::Global;
use std::marker::Model;

/// A tree that grows by one edge after another. Its memory is taken when it is made.
#[derive(Drop)]
pub struct Grower {
    parents: Vec<u64>,
    lengths: Vec<u64>,
    names: Vec<Name>,
}

impl Model for Grower {
    ghost use Rattle.std.specs.Prelude.{◌≤◌, vec_capacity};
    ghost use Rattle.bp_base.specs.Limits.{most_nodes};
    ghost use Rattle.bp_base.specs.Tree.{TreeValue};
    ghost use Rattle.bp_tree.specs.Edges.{IsGrowing};

    ghost Value = { TreeValue };

    ghost view = { λ g. record { parents = g.parents.items; lengths = g.lengths.items; names = g.names.items } };

    ghost invariant = { λ g. IsGrowing (record { parents = g.parents.items; lengths = g.lengths.items; names = g.names.items }) × (most_nodes ≤ vec_capacity g.parents) × (most_nodes ≤ vec_capacity g.lengths) × (most_nodes ≤ vec_capacity g.names) };
}

impl Grower {
    /// A tree without nodes.
    pub fn new(alloc: Global) -> Result<Grower, NoMemory>
        ensures none { IfOk result (λ g. g ≡ no_nodes) }
        ensures growing { IfOk result (λ g. IsGrowing g) }
    {
        let parents = Vec::with_capacity(alloc, MOST_NODES as usize)?;
        let lengths = Vec::with_capacity(alloc, MOST_NODES as usize)?;
        let names = Vec::with_capacity(alloc, MOST_NODES as usize)?;
        Ok(Grower {
            parents,
            lengths,
            names,
        })
    }

    /// Adds an edge and its lower node; the first edge makes the root too.
    /// An Err is UnknownParent, RepeatedName or TooManyNodes, and nothing changed.
    pub fn add(&mut self, edge: &Edge) -> Result<(), TreeKind>
        requires { IsLength edge.now.length }
        ensures growing { IsGrowing self.new }
        ensures kept { OnErr result (self.new ≡ self.old) }
        ensures edge { AddsEdge self.old edge.now self.new result }
    {
        if self.names.is_empty() {
            return self.begin(edge);
        }
        let parent = parent_of(&self.names, edge)?;
        self.push(parent, edge.length, edge.lower);
        Ok(())
    }

    // The root and its first child.
    fn begin(&mut self, edge: &Edge) -> Result<(), TreeKind>
        requires length { IsLength edge.now.length }
        requires none { self.old.names ≡ [] }
        requires growing { IsGrowing self.old }
        ensures growing { IsGrowing self.new }
        ensures kept { OnErr result (self.new ≡ self.old) }
        ensures edge { AddsEdge self.old edge.now self.new result }
    {
        if is_same(&edge.upper, &edge.lower) {
            return Err(TreeKind::RepeatedName);
        }
        self.push(0, 0, edge.upper);
        self.push(0, edge.length, edge.lower);
        Ok(())
    }

    fn push(&mut self, parent: u64, length: u64, name: Name)
        requires { IsGrowing (with_node self.old parent length name) }
        ensures node { self.new ≡ with_node self.old parent length name }
        ensures growing { IsGrowing self.new }
    {
        self.parents.push_reserved(parent);
        self.lengths.push_reserved(length);
        self.names.push_reserved(name);
    }

    /// The tree of all edges. An Err is Empty, RootIsLeaf or TooManyLeaves.
    pub fn finish(self) -> Result<Tree, TreeKind>
        ensures { Finishes self result }
    {
        let Grower {
            parents,
            lengths,
            names,
        } = self;
        if parents.len() <= 1 {
            return Err(TreeKind::Empty);
        }
        if root_children(&parents) < 2 {
            return Err(TreeKind::RootIsLeaf);
        }
        if leaf_count(&parents) > MOST_LEAVES {
            return Err(TreeKind::TooManyLeaves);
        }
        Ok(Tree::of(parents, lengths, names))
    }
}

// The place of the edge's upper name, where the edge may be added behind these names.
fn parent_of(names: &[Name], edge: &Edge) -> Result<u64, TreeKind>
    ensures { FindsParent names.now edge.now result }
{
    let Some(parent) = place_of(names, &edge.upper) else {
        return Err(TreeKind::UnknownParent);
    };
    if place_of(names, &edge.lower).is_some() {
        return Err(TreeKind::RepeatedName);
    }
    if names.len() as u64 >= MOST_NODES {
        return Err(TreeKind::TooManyNodes);
    }
    Ok(parent)
}

// The first place of the name.
fn place_of(names: &[Name], name: &Name) -> Option<u64>
    ensures place { MatchOption result (Contains names.now name.now → ⊥) (λ p. (p < length names.now) × (slice_index_or names.now p [] ≡ name.now)) }
    ensures name { IsName name.now }
{
    let wanted = name.bytes();
    for (at, other) in names.iter().enumerate() {
        if other.bytes() == wanted {
            return Some(at as u64);
        }
    }
    None
}

fn is_same(one: &Name, other: &Name) -> bool
    ensures same { IsTrue result ↔ (one.now ≡ other.now) }
    ensures names { IsName one.now × IsName other.now }
{
    one.bytes() == other.bytes()
}
