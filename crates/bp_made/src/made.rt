ghost use Rattle.std.specs.Prelude.{◌≡◌, ◌<◌, ◌≤◌, ◌^◌, IfOk};
ghost use Rattle.bp_base.specs.Tree.{leaf_count};
ghost use Rattle.bp_made.specs.Made.{IsMade};

use crate::growth::Growth;
use bp_base::{NoMemory, Tree};
use std::alloc::Global;

/// The tree of 2 to 16 leaves that the generator makes from a seed below 2^32. Node k is named `n` followed by k in decimal; lengths
/// are drawn from 1 to 9 grid units. It begins with two nodes below node 0; each round then draws a node, and makes one node below
/// it, or two where it had none. NoMemory where memory runs out.
pub fn made_tree(alloc: Global, leaves: u64, seed: u64) -> Result<Tree, NoMemory>
    requires leaves { (2 ≤ leaves) × (leaves ≤ 16) }
    requires seed { seed < 2 ^ 32 }
    ensures made { IfOk result (λ T. IsMade leaves seed T) }
    ensures leaves { IfOk result (λ T. leaf_count T ≡ leaves) }
{
    let mut growth = Growth::begin(alloc, seed)?;
    for _round in 2..leaves {
        growth.grow(alloc)?;
    }
    let Growth {
        parents,
        lengths,
        names,
        ..
    } = growth;
    Ok(Tree::of(parents, lengths, names))
}
