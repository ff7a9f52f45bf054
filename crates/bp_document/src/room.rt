ghost use Rattle.std.specs.Prelude.{◌≡◌, ◌<◌, ◌≤◌, [], ◌∷◌, ◌++◌, length, IfOk};
ghost use Rattle.bp_base.specs.Chain.{IsChainList};
ghost use Rattle.bp_base.specs.Limits.{most_leaves};

use bp_base::{Chain, MOST_LEAVES, NoMemory, Sequence};
use std::alloc::Global;
use std::marker::Model;

/// A list with memory for one item per leaf, which is taken when it is made.
#[derive(Drop)]
pub struct Room<T> {
    items: Vec<T>,
}

impl<T> Model for Room<T> {
    ghost use Rattle.std.specs.Prelude.{◌≤◌, List, length, vec_capacity};
    ghost use Rattle.std.specs.Coded.{coded_list};
    ghost use Rattle.bp_base.specs.Limits.{most_leaves};

    ghost Value = { List T };

    ghost coded = { coded_list T.code };

    ghost view = { λ r. r.items.items };

    ghost invariant = { λ r. (most_leaves ≤ vec_capacity r.items) × (length r.items.items ≤ most_leaves) };
}

impl<T: Drop> Room<T> {
    pub fn new(alloc: Global) -> Result<Room<T>, NoMemory>
        ensures { IfOk result (λ r. r ≡ []) }
    {
        let items = Vec::with_capacity(alloc, MOST_LEAVES as usize)?;
        Ok(Room { items })
    }

    pub fn push(&mut self, item: T)
        requires { length self.old < most_leaves }
        ensures { self.new ≡ self.old ++ item ∷ [] }
    {
        self.items.push_reserved(item);
    }

    pub fn len(&self) -> usize
        ensures count { result ≡ length self.now }
        ensures few { length self.now ≤ most_leaves }
    {
        self.items.len()
    }

    /// The items, with their memory.
    pub fn into_sequence(self) -> Sequence<T>
        ensures { result ≡ self }
    {
        let Room { items } = self;
        Sequence::from_vec(items)
    }
}

impl Room<u64> {
    /// Puts a chain's numbers in the place of the items.
    pub fn fill(&mut self, chain: &Chain)
        ensures value { self.new ≡ chain.now }
        ensures chain { IsChainList chain.now }
    {
        self.items.clear();
        for k in 0..chain.len() {
            self.items.push_reserved(chain.at(k));
        }
    }
}
