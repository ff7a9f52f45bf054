ghost use Rattle.std.specs.Prelude.{◌≡◌, IfOk};
ghost use Rattle.bp_base.specs.Tree.{IsTree};

use crate::{Name, NoMemory};
use std::alloc::Global;
use std::marker::Model;

/// A metric tree. Nodes are numbered from 0, the root, and each parent has a smaller number than its children.
/// Lengths are in grid units.
#[derive(Drop)]
pub struct Tree {
    parents: Vec<u64>,
    lengths: Vec<u64>,
    names: Vec<Name>,
}

impl Model for Tree {
    ghost use Rattle.bp_base.specs.Tree.{TreeValue, IsTree};

    ghost Value = { TreeValue };

    ghost view = { λ t. record { parents = t.parents.items; lengths = t.lengths.items; names = t.names.items } };

    ghost invariant = { λ t. IsTree (record { parents = t.parents.items; lengths = t.lengths.items; names = t.names.items }) };
}

impl Tree {
    /// The tree of these nodes: the parent, the length of the edge above, in grid units, and the name of each, by rising numbers.
    /// Entry 0 of the parents and of the lengths is 0. A parent has a lesser number than its children, the root at least two of
    /// them. Lengths are from 1 to 1,000, names differ, and there are at most 64 nodes and 32 leaves. It takes no memory.
    pub fn of(parents: Vec<u64>, lengths: Vec<u64>, names: Vec<Name>) -> Tree
        requires { IsTree (record { parents = parents.items; lengths = lengths.items; names = names.items }) }
        ensures value { result ≡ record { parents = parents.items; lengths = lengths.items; names = names.items } }
        ensures tree { IsTree result }
    {
        Tree {
            parents,
            lengths,
            names,
        }
    }

    /// The parent of each node; entry 0 is 0.
    pub fn parents(&self) -> &[u64]
        ensures value { result.now ≡ self.now.parents }
        ensures tree { IsTree self.now }
    {
        &self.parents
    }

    /// The length of the edge above each node; entry 0 is 0.
    pub fn lengths(&self) -> &[u64]
        ensures value { result.now ≡ self.now.lengths }
        ensures tree { IsTree self.now }
    {
        &self.lengths
    }

    /// The name of each node.
    pub fn names(&self) -> &[Name]
        ensures value { result.now ≡ self.now.names }
        ensures tree { IsTree self.now }
    {
        &self.names
    }

    /// A copy of the tree.
    pub fn copy(&self, alloc: Global) -> Result<Tree, NoMemory>
        ensures value { IfOk result (λ t. t ≡ self.now) }
        ensures tree { IsTree self.now }
    {
        let parents = Vec::from_slice(alloc, &self.parents)?;
        let lengths = Vec::from_slice(alloc, &self.lengths)?;
        let names = Vec::from_slice(alloc, &self.names)?;
        Ok(Tree {
            parents,
            lengths,
            names,
        })
    }
}
