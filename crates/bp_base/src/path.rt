ghost use Rattle.std.specs.Prelude.{◌≡◌, ◌<◌, ◌≤◌, [], ◌∷◌, ◌++◌, length, slice_get, take, Some, OnOk, OnErr, IfOk};
ghost use Rattle.bp_base.specs.declared.path.Packed.{Packed as AnyPacked};

use crate::NoMemory;
use smallvec::SmallVec;
use std::alloc::Global;
use std::marker::Model;

/// How the tip of a pair's first leaf lies to that of its second.
#[derive(Clone, Copy, Debug, Default, PartialEq, Eq)]
pub enum Choice {
    #[default]
    Left,
    Right,
    Below,
    Above,
}

/// Two numbers. They name a pair of n leaves where `1 <= i < j <= n`.
#[derive(Clone, Copy, Debug, PartialEq, Eq)]
pub struct Pair {
    pub i: u64,
    pub j: u64,
}

/// A choice for a pair: a difference constraint on one axis.
#[derive(Clone, Copy, Debug, PartialEq, Eq)]
pub struct Step {
    pub pair: Pair,
    pub choice: Choice,
}

// A step in three bytes.
#[derive(Clone, Copy, Default, PartialEq, Eq)]
struct Packed {
    i: u8,
    j: u8,
    choice: Choice,
}

/// A branch of the search: at most 496 steps, each for a pair of 32 leaves.
#[derive(Drop)]
pub struct Path {
    // five steps take no more room than the vector of a longer path, and most paths of a search are longer
    steps: SmallVec<Packed, 5>,
}

impl Model for Path {
    ghost use Rattle.std.specs.Prelude.{List, map, All, length, ◌≤◌};
    ghost use Rattle.bp_base.specs.declared.path.Step.{Step};

    ghost Value = { List Step };

    ghost use Rattle.bp_base.specs.declared.path.Packed.{Packed};
    ghost use Rattle.bp_base.specs.Path.{IsPath};

    ghost view = { λ p. map (λ (s : Packed). record { pair = record { i = s.i; j = s.j }; choice = s.choice }) p.steps.items };

    ghost invariant = { λ p. IsPath (map (λ (s : Packed). record { pair = record { i = s.i; j = s.j }; choice = s.choice }) p.steps.items) };
}

impl Path {
    ghost use Rattle.bp_base.specs.declared.path.Step.{Step as AnyStep};
    ghost use Rattle.bp_base.specs.Limits.{most_steps};
    ghost use Rattle.bp_base.specs.Path.{IsPath, IsSmallPair};

    /// The path without steps.
    pub fn empty(alloc: Global) -> Path
        ensures { result ≡ [] }
    {
        Path {
            steps: SmallVec::new(alloc),
        }
    }

    #[inline]
    pub fn len(&self) -> u64
        ensures length { result ≡ length self.now }
        ensures path { IsPath self.now }
    {
        self.steps.len() as u64
    }

    /// The step of number k, from 0 on.
    #[inline]
    pub fn at(&self, k: u64) -> Step
        requires { k < length self.now }
        ensures step { slice_get self.now k ≡ Some result }
        ensures small { IsSmallPair result.pair }
    {
        unpacked(self.steps[k as usize])
    }

    /// Adds the step at the end. After NoMemory nothing changed.
    pub fn push(&mut self, step: Step) -> Result<(), NoMemory>
        requires room { length self.old < most_steps }
        requires pair { IsSmallPair step.pair }
        ensures ok { OnOk result (self.new ≡ self.old ++ step ∷ []) }
        ensures err { OnErr result (self.new ≡ self.old) }
    {
        let packed = Packed {
            i: step.pair.i as u8,
            j: step.pair.j as u8,
            choice: step.choice,
        };
        self.steps.push(packed)?;
        Ok(())
    }

    /// Takes the last step off.
    pub fn pop(&mut self) -> Step
        requires { 0 < length self.old }
        ensures { self.old ≡ self.new ++ result ∷ [] }
    {
        match self.steps.pop() {
            Some(packed) => unpacked(packed),
            None => unreachable!(),
        }
    }

    /// A copy of the path.
    pub fn copy(&self, alloc: Global) -> Result<Path, NoMemory>
        ensures value { IfOk result (λ p. p ≡ self.now) }
        ensures path { IsPath self.now }
    {
        let steps = SmallVec::from_slice(alloc, self.steps.as_slice())?;
        Ok(Path { steps })
    }

    /// The path with one more step, in a copy with room for just that.
    pub fn extended(&self, alloc: Global, step: Step) -> Result<Path, NoMemory>
        requires room { length self.now < most_steps }
        requires pair { IsSmallPair step.pair }
        ensures { IfOk result (λ p. p ≡ self.now ++ step ∷ []) }
    {
        let mut steps = SmallVec::with_capacity(alloc, self.steps.len() + 1)?;
        steps.extend_from_slice(self.steps.as_slice())?;
        let mut path = Path { steps };
        path.push(step)?;
        Ok(path)
    }

    /// How many steps at their beginnings the paths have in common.
    pub fn common(&self, other: &Path) -> u64
        ensures within { (result ≤ length self.now) × (result ≤ length other.now) }
        ensures same { take result self.now ≡ take result other.now }
        ensures most { (s : AnyStep) → slice_get self.now result ≡ Some s → slice_get other.now result ≡ Some s → ⊥ }
    {
        in_common(self.steps.as_slice(), other.steps.as_slice()) as u64
    }
}

// How many elements at their beginnings the slices have in common.
fn in_common(first: &[Packed], second: &[Packed]) -> usize
    ensures within { (result ≤ length first.now) × (result ≤ length second.now) }
    ensures same { take result first.now ≡ take result second.now }
    ensures most { (s : AnyPacked) → slice_get first.now result ≡ Some s → slice_get second.now result ≡ Some s → ⊥ }
{
    let shorter = first.len().min(second.len());
    for k in 0..shorter {
        if first[k] != second[k] {
            return k;
        }
    }
    shorter
}

#[inline]
fn unpacked(packed: Packed) -> Step
    ensures { result ≡ record { pair = record { i = packed.i; j = packed.j }; choice = packed.choice } }
{
    Step {
        pair: Pair {
            i: u64::from(packed.i),
            j: u64::from(packed.j),
        },
        choice: packed.choice,
    }
}
