// Nodes to be joined, and the order in which a tree takes them.
ghost use Rattle.std.specs.Prelude.{◌≡◌};
ghost use Rattle.bp_base.specs.Bags.{choice_number};
ghost use Rattle.bp_join.specs.Trees.{path_cmp};

use bp_base::{Choice, Claim, Pair, Path};
use std::cmp::Ordering;

/// A node that is to stand at its path. Entries point at what they say, so that sorting moves little.
#[derive(Clone, Copy)]
pub struct Entry<'a> {
    pub path: &'a Path,
    pub found: Found<'a>,
}

#[derive(Clone, Copy)]
pub enum Found<'a> {
    Split { pair: Pair },
    Closed { claim: &'a Claim },
    Open { claim: &'a Claim },
}

/// A task that was left, with what is shown for its path.
#[derive(Drop)]
pub struct Opened {
    pub path: Path,
    pub claim: Claim,
}

/// How two paths stand by their choices: at the first that differs, or else the shorter path first.
pub fn compare(first: &Path, second: &Path) -> Ordering
    ensures { result ≡ path_cmp first.now second.now }
{
    for k in first.common(second)..first.len().min(second.len()) {
        match rank(first.at(k).choice).cmp(&rank(second.at(k).choice)) {
            Ordering::Equal => {}
            other => return other,
        }
    }
    first.len().cmp(&second.len())
}

fn rank(choice: Choice) -> u64
    ensures { result ≡ choice_number choice }
{
    match choice {
        Choice::Left => 0,
        Choice::Right => 1,
        Choice::Below => 2,
        Choice::Above => 3,
    }
}
