ghost use Rattle.std.specs.Prelude.{◌≡◌};
ghost use Rattle.bp_metric.specs.Nodes.{lesser};
ghost use Rattle.bp_check.specs.Found.{joined};
ghost use Rattle.bp_check.specs.declared.found.Found.TheVariants.{Sound, WrongChain, WrongSplit};

/// What is found of the nodes of a proof: no bad one so far, and the least weight that counts where any does; or the least chain that
/// is bad; or the least split that is. Nodes are numbered from 0 in the order of the proof lines.
#[derive(Clone, Copy, Debug, PartialEq, Eq)]
pub enum Found {
    Sound { weight: Option<u64> },
    WrongChain { node: u64 },
    WrongSplit { node: u64 },
}

/// What is found of two groups of nodes together.
pub fn joined(first: Found, second: Found) -> Found
    ensures { result ≡ joined first second }
{
    match first {
        Found::Sound { weight } => with_weight(weight, second),
        Found::WrongChain { node } => with_chain(node, second),
        Found::WrongSplit { node } => with_split(node, second),
    }
}

fn with_weight(weight: Option<u64>, other: Found) -> Found
    ensures { result ≡ joined (Sound weight) other }
{
    match other {
        Found::Sound { weight: second } => Found::Sound {
            weight: lesser(weight, second),
        },
        Found::WrongChain { node } => Found::WrongChain { node },
        Found::WrongSplit { node } => Found::WrongSplit { node },
    }
}

fn with_chain(node: u64, other: Found) -> Found
    ensures { result ≡ joined (WrongChain node) other }
{
    match other {
        Found::Sound { .. } => Found::WrongChain { node },
        Found::WrongChain { node: second } => Found::WrongChain {
            node: node.min(second),
        },
        Found::WrongSplit { node: second } => Found::WrongSplit { node: second },
    }
}

fn with_split(node: u64, other: Found) -> Found
    ensures { result ≡ joined (WrongSplit node) other }
{
    match other {
        Found::WrongSplit { node: second } => Found::WrongSplit {
            node: node.min(second),
        },
        _ => Found::WrongSplit { node },
    }
}

fn lesser(first: Option<u64>, second: Option<u64>) -> Option<u64>
    ensures { result ≡ lesser first second }
{
    match (first, second) {
        (Some(first), Some(second)) => Some(first.min(second)),
        (None, other) => other,
        (other, None) => other,
    }
}
