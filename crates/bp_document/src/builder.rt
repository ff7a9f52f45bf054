// A refutation built from its nodes in preorder, without recursion.
ghost use Rattle.std.specs.Prelude.{[], None};
ghost use Rattle.bp_document.specs.Built.{Adds, Closes, ClosesLast, Finishes, IsBuilt, Puts};

use crate::{NodeKind, NodeLine};
use bp_base::{NoMemory, Pair, Refutation};
use sqlite_items::Items;
use std::alloc::Global;

/// A split whose children aren't all there yet.
#[derive(Drop)]
pub struct Branch {
    pub pair: Pair,
    pub children: Items<Refutation>,
}

/// The open splits, each a child of the one before, or the whole refutation where none is open.
#[derive(Drop)]
pub struct Builder {
    pub branches: Vec<Branch>,
    pub root: Option<Refutation>,
}

impl Builder {
    pub fn new(alloc: Global) -> Builder
        ensures { IsBuilt result [] None }
    {
        Builder {
            branches: Vec::new(alloc),
            root: None,
        }
    }

    /// Adds the next node.
    pub fn add(&mut self, alloc: Global, node: NodeLine) -> Result<(), NoMemory>
        ensures { Adds self.old node self.new result }
    {
        self.close_to(node.depth)?;
        match node.kind {
            NodeKind::Split { pair } => {
                let children = Items::new(alloc);
                self.branches.push(Branch { pair, children })?;
                Ok(())
            }
            NodeKind::Closed { claim } => self.put(Refutation::Closed { claim }),
            NodeKind::Open { claim } => self.put(Refutation::Open { claim }),
        }
    }

    // Closes the splits that are open at this depth and below.
    fn close_to(&mut self, depth: u64) -> Result<(), NoMemory>
        ensures { Closes self.old depth self.new result }
    {
        while self.branches.len() as u64 > depth {
            self.close()?;
        }
        Ok(())
    }

    // Closes the last open split.
    fn close(&mut self) -> Result<(), NoMemory>
        ensures { ClosesLast self.old self.new result }
    {
        let Some(last) = self.branches.pop() else {
            return Ok(());
        };
        let Branch { pair, children } = last;
        self.put(Refutation::Split { pair, children })
    }

    // Puts a whole refutation behind the children of the last open split.
    fn put(&mut self, child: Refutation) -> Result<(), NoMemory>
        ensures { Puts self.old child self.new result }
    {
        match self.branches.pop() {
            None => {
                self.root = Some(child);
                Ok(())
            }
            Some(last) => {
                let mut last = last;
                last.children.push(child)?;
                self.branches.push(last)?;
                Ok(())
            }
        }
    }

    /// The whole refutation. None where there are no nodes.
    pub fn finish(self) -> Result<Option<Refutation>, NoMemory>
        ensures { Finishes self result }
    {
        let mut builder = self;
        builder.close_to(0)?;
        Ok(builder.root)
    }
}
