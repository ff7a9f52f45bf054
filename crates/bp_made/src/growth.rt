// A tree that grows by drawn nodes.
ghost use Rattle.std.specs.Prelude.{◌≡◌, ◌<◌, ◌^◌, IfOk, OnOk, length};
ghost use Rattle.bp_base.specs.Tree.{has_child};
ghost use Rattle.bp_made.specs.Made.{CanGrow, grown, node_name, root, with_child, with_children};

use bp_base::{Name, NoMemory, draw};
use std::alloc::Global;
use std::marker::Model;

#[derive(Drop)]
pub struct Growth {
    pub parents: Vec<u64>,
    pub lengths: Vec<u64>,
    pub names: Vec<Name>,
    pub state: u64,
}

impl Model for Growth {
    ghost use Rattle.bp_made.specs.Made.{Growing};

    ghost Value = { Growing };

    ghost view = { λ g. record { tree = record { parents = g.parents.items; lengths = g.lengths.items; names = g.names.items }; state = g.state } };
}

impl Growth {
    // Node 0 and two nodes below it.
    pub fn begin(alloc: Global, seed: u64) -> Result<Growth, NoMemory>
        requires { seed < 2 ^ 32 }
        ensures { IfOk result (λ g. g ≡ with_children 0 (record { tree = root; state = seed })) }
    {
        let mut growth = Growth {
            parents: Vec::from_array(alloc, [0])?,
            lengths: Vec::from_array(alloc, [0])?,
            names: Vec::from_array(alloc, [node_name(alloc, 0)?])?,
            state: seed,
        };
        growth.add_child(alloc, 0)?;
        growth.add_child(alloc, 0)?;
        Ok(growth)
    }

    // Grows by a leaf.
    #[tactic(auto, unfolding(crate::specs::Made::grown))]
    pub fn grow(&mut self, alloc: Global) -> Result<(), NoMemory>
        requires { CanGrow self.old }
        ensures { OnOk result (self.new ≡ grown self.old) }
    {
        let node = draw(&mut self.state) % self.parents.len() as u64;
        if self.has_child(node) {
            return self.add_child(alloc, node);
        }
        self.add_child(alloc, node)?;
        self.add_child(alloc, node)
    }

    fn has_child(&self, node: u64) -> bool
        requires { 0 < length self.now.tree.parents }
        ensures { result ≡ has_child self.now.tree node }
    {
        self.parents[1..].contains(&node)
    }

    // Makes a node below this one, with a drawn length.
    fn add_child(&mut self, alloc: Global, node: u64) -> Result<(), NoMemory>
        requires { self.old.state < 2 ^ 32 }
        ensures made { OnOk result (self.new ≡ with_child node self.old) }
        ensures state { OnOk result (self.new.state < 2 ^ 32) }
    {
        let name = node_name(alloc, self.parents.len() as u64)?;
        let length = draw(&mut self.state) % 9 + 1;
        self.parents.push(node)?;
        self.lengths.push(length)?;
        self.names.push(name)?;
        Ok(())
    }
}

fn node_name(alloc: Global, node: u64) -> Result<Name, NoMemory>
    ensures { IfOk result (λ name. name ≡ node_name node) }
{
    let text = format!(in alloc; "n{node}")?;
    match Name::new(text.as_bytes()) {
        Some(name) => Ok(name),
        None => unreachable!(),
    }
}
