// Trees that are written out.
ghost use Rattle.std.specs.Prelude.{◌≡◌, ◌≤◌, IsTrue, IfOk};
ghost use Rattle.bp_metric.specs.Samples.{is_sample, letters, sample};

use bp_base::{Name, NoMemory, Tree};
use std::alloc::Global;

/// The tree of these parents and lengths, in grid units, whose nodes are named a, b, c, .. Entry 0 of both lists is 0.
pub fn tree(alloc: Global, parents: &[u64], lengths: &[u64]) -> Result<Tree, NoMemory>
    requires { IsTrue (is_sample parents.now lengths.now) }
    ensures { IfOk result (λ tree. tree ≡ sample parents.now lengths.now) }
{
    let names = names(alloc, parents.len())?;
    let parents = Vec::from_slice(alloc, parents)?;
    let lengths = Vec::from_slice(alloc, lengths)?;
    Ok(Tree::of(parents, lengths, names))
}

// The names a, b, c, ..
fn names(alloc: Global, count: usize) -> Result<Vec<Name>, NoMemory>
    requires { count ≤ 26 }
    ensures { IfOk result (λ v. v.items ≡ letters count) }
{
    let mut names = Vec::new(alloc);
    for number in 0..count {
        match Name::new(&[97 + number as u8]) {
            Some(name) => names.push(name)?,
            None => unreachable!(),
        }
    }
    Ok(names)
}
