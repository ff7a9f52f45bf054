// The facts of the lemmas so far.
ghost use Rattle.std.specs.Prelude.{◌≡◌, ℕ, ◌-◌, ◌≤◌, List, [], ◌∷◌, ◌++◌, length, slice_index_or, All, OnOk, OnErr, IfOk};
ghost use Rattle.bp_replay.specs.Stored.{IsSmall, facts_in};

use crate::packed::{Packed, pack};
use bp_arrangement::Fact;
use bp_base::{NoMemory, Sequence};
use std::alloc::Global;
use std::marker::Model;

#[derive(Drop)]
pub struct Store {
    lemmas: Vec<Sequence<Packed>>,
}

impl Model for Store {
    ghost use Rattle.std.specs.Prelude.{List, map};
    ghost use Rattle.bp_arrangement.specs.declared.fact.Fact.{Fact};
    ghost use Rattle.bp_replay.specs.Stored.{facts_in};

    ghost Value = { List (List Fact) };

    ghost view = { λ s. map facts_in s.lemmas.items };
}

impl Store {
    pub fn new(alloc: Global) -> Store
        ensures { result ≡ [] }
    {
        Store {
            lemmas: Vec::new(alloc),
        }
    }

    #[inline]
    pub fn len(&self) -> u64
        ensures { result ≡ length self.now }
    {
        self.lemmas.len() as u64
    }

    // The facts of a lemma.
    #[inline]
    pub fn facts(&self, number: u64) -> &[Packed]
        requires { (1 ≤ number) × (number ≤ length self.now) }
        ensures { facts_in result.now ≡ slice_index_or self.now (number - 1) [] }
    {
        self.lemmas[number as usize - 1].as_slice()
    }

    // Adds the facts of a lemma.
    pub fn push(&mut self, alloc: Global, facts: &[Fact]) -> Result<(), NoMemory>
        requires { All IsSmall facts.now }
        ensures ok { OnOk result (self.new ≡ self.old ++ facts.now ∷ []) }
        ensures err { OnErr result (self.new ≡ self.old) }
    {
        let packed = pack_all(alloc, facts)?;
        self.lemmas.push(packed)?;
        Ok(())
    }
}

fn pack_all(alloc: Global, facts: &[Fact]) -> Result<Sequence<Packed>, NoMemory>
    requires { All IsSmall facts.now }
    ensures { IfOk result (λ packed. facts_in packed ≡ facts.now) }
{
    let mut packed = Vec::with_capacity(alloc, facts.len())?;
    for fact in facts {
        packed.push(pack(*fact))?;
    }
    Ok(Sequence::from_vec(packed))
}
