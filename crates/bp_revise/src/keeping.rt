// What is kept of an old proof.
ghost use Rattle.std.specs.Prelude.{◌≡◌, All, IfOk};
ghost use Rattle.bp_base.specs.Tree.{TreeValue, IsLeaf};
ghost use Rattle.bp_base.specs.declared.refutation.Refutation.TheVariants.{Closed, Open};
ghost use Rattle.bp_check.specs.Checks.{ProofFits};
ghost use Rattle.bp_chain.specs.Counting.{chain_of};
ghost use Rattle.bp_revise.specs.Keep.{AreOfOneShape, FitsShape, falls_short, kept, kept_of, one_leaf};

use bp_base::{Axis, Chain, Claim, NoMemory, Refutation};
use bp_chain::counted;
use bp_metric::Metric;
use bp_pairs::allowed;
use sqlite_items::Items;
use std::alloc::Global;

/// What is kept of an old proof on the metric's tree. A split that hasn't one child for each choice that the tree allows, and a closed
/// leaf whose walk counts with less than the start, in grid units, become open; all else stays. Without a proof all is open. The proof
/// fits the empty path on some tree of the same shape.
pub fn keep(
    alloc: Global,
    metric: &Metric,
    start: u64,
    proof: Option<Refutation>,
) -> Result<Refutation, NoMemory>
    requires { (S : TreeValue) × AreOfOneShape S metric.now.tree × ProofFits S metric.now.sheet proof }
    ensures { IfOk result (λ r. r ≡ kept_of metric.now.tree metric.now.sheet start proof) }
{
    match proof {
        None => Ok(open_leaf(alloc)),
        Some(refutation) => kept(alloc, metric, start, &refutation),
    }
}

fn open_leaf(alloc: Global) -> Refutation
    ensures { result ≡ Open one_leaf }
{
    match Chain::new(alloc, &[1]) {
        Some(chain) => Refutation::Open {
            claim: Claim::Walk {
                axis: Axis::X,
                chain,
            },
        },
        None => unreachable!(),
    }
}

fn kept(
    alloc: Global,
    metric: &Metric,
    start: u64,
    refutation: &Refutation,
) -> Result<Refutation, NoMemory>
    requires { FitsShape metric.now.tree metric.now.sheet refutation.now }
    ensures { IfOk result (λ r. r ≡ kept metric.now.tree metric.now.sheet start refutation.now) }
{
    match refutation {
        Refutation::Split { pair, children } => {
            if children.len() as u64 != allowed(metric, *pair).count() {
                return Ok(open_leaf(alloc));
            }
            let mut kept_children = Vec::with_capacity(alloc, children.len())?;
            for child in children.as_slice() {
                let one = kept(alloc, metric, start, child)?;
                kept_children.push(one)?;
            }
            Ok(Refutation::Split {
                pair: *pair,
                children: Items::from_vec(kept_children),
            })
        }
        Refutation::Closed { claim } => Ok(kept_leaf(metric, start, claim)),
        Refutation::Open { claim } => Ok(Refutation::Open {
            claim: claim.copy(),
        }),
    }
}

// A closed leaf, open where its claim counts with less than the start.
fn kept_leaf(metric: &Metric, start: u64, claim: &Claim) -> Refutation
    requires { All (IsLeaf metric.now.tree) (chain_of claim.now) }
    ensures { result ≡ kept metric.now.tree metric.now.sheet start (Closed claim.now) }
{
    let claim_again = claim.copy();
    if falls_short(start, counted(metric, claim)) {
        Refutation::Open { claim: claim_again }
    } else {
        Refutation::Closed { claim: claim_again }
    }
}

fn falls_short(start: u64, weight: Option<u64>) -> bool
    ensures { result ≡ falls_short start weight }
{
    match weight {
        None => false,
        Some(weight) => weight < start,
    }
}
