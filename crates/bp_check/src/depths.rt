ghost use Rattle.std.specs.Prelude.{◌≡◌, ◌<◌, [], ◌∷◌, ◌++◌, length, slice_get, Some, None, IfOk, MatchOption};
ghost use Rattle.bp_base.specs.declared.path.Step.{Step as AnyStep};
ghost use Rattle.bp_base.specs.Limits.{most_steps};

use bp_base::{MOST_STEPS, NoMemory, Step};
use bp_chain::Steps;
use std::alloc::Global;
use std::marker::Model;

/// A list with memory for one item per step of the longest path, which is taken when it is made.
#[derive(Drop)]
pub struct Depths<T> {
    items: Vec<T>,
}

impl<T> Model for Depths<T> {
    ghost use Rattle.std.specs.Prelude.{◌≤◌, List, vec_capacity};
    ghost use Rattle.std.specs.Coded.{coded_list};
    ghost use Rattle.bp_base.specs.Limits.{most_steps};

    ghost Value = { List T };

    ghost coded = { coded_list T.code };

    ghost view = { λ d. d.items.items };

    ghost invariant = { λ d. most_steps ≤ vec_capacity d.items };
}

impl<T: Drop> Depths<T> {
    pub fn new(alloc: Global) -> Result<Depths<T>, NoMemory>
        ensures { IfOk result (λ d. d ≡ []) }
    {
        let items = Vec::with_capacity(alloc, MOST_STEPS as usize)?;
        Ok(Depths { items })
    }

    pub fn push(&mut self, item: T)
        requires { length self.old < most_steps }
        ensures { self.new ≡ self.old ++ item ∷ [] }
    {
        self.items.push_reserved(item);
    }

    pub fn pop(&mut self) -> Option<T>
        ensures { MatchOption result ((self.old ≡ []) × (self.new ≡ [])) (λ last. self.old ≡ self.new ++ last ∷ []) }
    {
        self.items.pop()
    }

    /// Takes the last item off, where there is one.
    pub fn take_last(&mut self) -> T
        requires { 0 < length self.old }
        ensures { self.old ≡ self.new ++ result ∷ [] }
    {
        match self.items.pop() {
            Some(item) => item,
            None => unreachable!(),
        }
    }

    pub fn len(&self) -> u64
        ensures { result ≡ length self.now }
    {
        self.items.len() as u64
    }
}

impl Steps for Depths<Step> {
    ghost steps = { λ path. path };

    #[inline]
    fn len(&self) -> u64 {
        self.items.len() as u64
    }

    #[inline]
    fn at(&self, k: u64) -> Step {
        self.items[k as usize]
    }
}
