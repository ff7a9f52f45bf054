// Paths and chains that are written out.
ghost use Rattle.std.specs.Prelude.{◌≡◌, ◌≤◌, IfOk, MatchResult, length};
ghost use Rattle.bp_base.specs.Limits.{most_leaves, most_steps};
ghost use Rattle.bp_metric.specs.Chains.{HasPairsOf};

use bp_base::{Chain, Choice, MOST_STEPS, NoMemory, Pair, Path, Step};
use std::alloc::Global;

/// Why there is no path of some steps: a step isn't for a pair of the leaves, or there are more than 496, or memory is wanting.
#[derive(Clone, Copy, Debug, Drop, PartialEq, Eq)]
pub enum NoSample {
    Memory,
    Steps,
}

/// A choice for a pair of leaves.
pub fn step(i: u64, j: u64, choice: Choice) -> Step
    ensures { result ≡ record { pair = record { i = i; j = j }; choice = choice } }
{
    Step {
        pair: Pair { i, j },
        choice,
    }
}

/// The path of these steps, each for a pair of n leaves.
pub fn path_of(alloc: Global, n: u64, steps: &[Step]) -> Result<Path, NoSample>
    requires { n ≤ most_leaves }
    ensures path { IfOk result (λ path. path ≡ steps.now) }
    ensures pairs { IfOk result (λ path. HasPairsOf n path) }
    ensures err { MatchResult result (λ path. 1 ≤ 1) (λ e. e ≡ NoSample.Steps → HasPairsOf n steps.now → length steps.now ≤ most_steps → ⊥) }
{
    let mut path = Path::empty(alloc);
    for step in steps {
        let pair = step.pair;
        if pair.i < 1 || pair.i >= pair.j || n < pair.j || path.len() >= MOST_STEPS {
            return Err(NoSample::Steps);
        }
        match path.push(*step) {
            Ok(()) => {}
            Err(_) => return Err(NoSample::Memory),
        }
    }
    Ok(path)
}

/// The numbers of a chain.
pub fn leaves_of(alloc: Global, chain: &Chain) -> Result<Vec<u64>, NoMemory>
    ensures { IfOk result (λ leaves. leaves.items ≡ chain.now) }
{
    let mut leaves = Vec::new(alloc);
    for k in 0..chain.len() {
        leaves.push(chain.at(k))?;
    }
    Ok(leaves)
}
