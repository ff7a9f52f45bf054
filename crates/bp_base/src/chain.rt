ghost use Rattle.std.specs.Prelude.{◌≡◌, ◌<◌, length, slice_get, Some};
ghost use Rattle.bp_base.specs.Chain.{IsChainList, ChainsExactly};

use crate::{Axis, MOST_LEAVES, MOST_NUMBER};
use smallvec::SmallVec;
use std::alloc::Global;
use std::marker::Model;

/// A list of 1 to 32 leaf numbers, each at most 999,999,999, kept inline.
#[derive(Drop)]
pub struct Chain {
    leaves: SmallVec<u32, 32>,
}

impl Model for Chain {
    ghost use Rattle.std.specs.Prelude.{List, ℕ};
    ghost use Rattle.bp_base.specs.Chain.{IsChainList};

    ghost Value = { List ℕ };

    ghost view = { λ c. c.leaves.items };

    ghost invariant = { λ c. IsChainList c.leaves.items };
}

impl Chain {
    /// The chain of these leaves. None exactly where there are not 1 to 32 numbers, or one is above 999,999,999.
    pub fn new(alloc: Global, leaves: &[u64]) -> Option<Chain>
        ensures { ChainsExactly leaves.now result }
    {
        if leaves.is_empty() || leaves.len() as u64 > MOST_LEAVES {
            return None;
        }
        let mut kept = SmallVec::new(alloc);
        for leaf in leaves {
            if *leaf > MOST_NUMBER {
                return None;
            }
            kept.push_reserved(*leaf as u32);
        }
        Some(Chain { leaves: kept })
    }

    /// The same leaves again, without memory.
    pub fn copy(&self) -> Chain
        ensures { result ≡ self.now }
    {
        let mut kept = SmallVec::new(*self.leaves.allocator());
        for leaf in self.leaves.as_slice() {
            kept.push_reserved(*leaf);
        }
        Chain { leaves: kept }
    }

    pub fn len(&self) -> u64
        ensures length { result ≡ length self.now }
        ensures chain { IsChainList self.now }
    {
        self.leaves.len() as u64
    }

    /// The leaf at place k, from 0 on.
    pub fn at(&self, k: u64) -> u64
        requires { k < length self.now }
        ensures { slice_get self.now k ≡ Some result }
    {
        u64::from(self.leaves[k as usize])
    }
}

/// That the leaves are a chain of a path on an axis, or a cycle.
#[derive(Drop)]
pub enum Claim {
    Walk { axis: Axis, chain: Chain },
    Cycle { axis: Axis, chain: Chain },
}

impl Claim {
    /// The same claim again, without memory.
    pub fn copy(&self) -> Claim
        ensures { result ≡ self.now }
    {
        match self {
            Claim::Walk { axis, chain } => Claim::Walk {
                axis: *axis,
                chain: chain.copy(),
            },
            Claim::Cycle { axis, chain } => Claim::Cycle {
                axis: *axis,
                chain: chain.copy(),
            },
        }
    }
}
