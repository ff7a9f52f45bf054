// Whether a claim is a chain or a cycle of a path.
ghost use Rattle.std.specs.Prelude.{◌≡◌, ◌≢◌, ◌≤◌, ◌<◌, ◌↔◌, ℕ, length, slice_index, IsTrue, All, AllPairs};
ghost use Rattle.bp_metric.specs.Chains.{ArePlaced, ClaimHolds, IsChain, IsCycle};

use crate::places::places;
use crate::steps::Steps;
use bp_base::{Axis, Chain, Claim};

/// Whether the claim's list is a chain of this path on its axis, or a cycle, as it says, with leaf numbers from 1 to n.
/// The numbers of the list may be any.
pub fn claim_holds<P: Steps>(path: &P, n: u64, claim: &Claim) -> bool
    ensures { IsTrue result ↔ ClaimHolds n (P.steps path.now) claim.now }
{
    match claim {
        Claim::Walk { axis, chain } => is_chain(path, n, *axis, chain),
        Claim::Cycle { axis, chain } => is_cycle(path, n, *axis, chain),
    }
}

fn is_cycle<P: Steps>(path: &P, n: u64, axis: Axis, chain: &Chain) -> bool
    ensures { IsTrue result ↔ IsCycle n (P.steps path.now) axis chain.now }
{
    if !is_chain(path, n, axis, chain) || chain.len() < 2 {
        return false;
    }
    places(path, axis, chain.at(chain.len() - 1), chain.at(0))
}

fn is_chain<P: Steps>(path: &P, n: u64, axis: Axis, chain: &Chain) -> bool
    ensures { IsTrue result ↔ IsChain n (P.steps path.now) axis chain.now }
{
    if !are_leaves(chain, n) {
        return false;
    }
    if !differ(chain) {
        return false;
    }
    are_placed(path, axis, chain)
}

// Whether each number is a leaf of n.
fn are_leaves(chain: &Chain, n: u64) -> bool
    ensures leaves { IsTrue result ↔ All (λ i. (1 ≤ i) × (i ≤ n)) chain.now }
    ensures some { 1 ≤ length chain.now }
{
    for k in 0..chain.len() {
        let leaf = chain.at(k);
        if leaf < 1 || n < leaf {
            return false;
        }
    }
    true
}

// Whether no number stands twice in the list.
fn differ(chain: &Chain) -> bool
    ensures { IsTrue result ↔ AllPairs (λ a b. a ≢ b) chain.now }
{
    for k in 0..chain.len() {
        if stands_before(chain, k) {
            return false;
        }
    }
    true
}

// Whether the number at place k stands at an earlier place too.
fn stands_before(chain: &Chain, k: u64) -> bool
    requires { k < length chain.now }
    ensures yes { IsTrue result → (m : ℕ) × (m < k) × (slice_index chain.now m ≡ slice_index chain.now k) }
    ensures no { (m : ℕ) → m < k → slice_index chain.now m ≡ slice_index chain.now k → IsTrue result }
{
    let leaf = chain.at(k);
    for m in 0..k {
        if chain.at(m) == leaf {
            return true;
        }
    }
    false
}

// Whether each leaf is placed before the next.
fn are_placed<P: Steps>(path: &P, axis: Axis, chain: &Chain) -> bool
    ensures { IsTrue result ↔ ArePlaced (P.steps path.now) axis chain.now }
{
    for k in 1..chain.len() {
        if !places(path, axis, chain.at(k - 1), chain.at(k)) {
            return false;
        }
    }
    true
}
