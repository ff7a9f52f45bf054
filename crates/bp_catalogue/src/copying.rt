// Copies of documents.
ghost use Rattle.std.specs.Prelude.{◌≡◌, IfOk};

use bp_base::{Floor, NoMemory, Refutation, Sequence};
use bp_document::Document;
use sqlite_items::Items;
use std::alloc::Global;

/// A copy of the document.
pub fn copied(alloc: Global, document: &Document) -> Result<Document, NoMemory>
    ensures { IfOk result (λ d. d ≡ document.now) }
{
    let tree = document.tree.copy(alloc)?;
    let points = Vec::from_slice(alloc, document.points.as_slice())?;
    let floor = copied_floor(alloc, &document.floor)?;
    let proof = copied_proof(alloc, &document.proof)?;
    Ok(Document {
        tree,
        side: document.side,
        bound: document.bound,
        points: Sequence::from_vec(points),
        floor,
        proof,
        sheet: document.sheet,
    })
}

fn copied_floor(alloc: Global, floor: &Floor) -> Result<Floor, NoMemory>
    ensures { IfOk result (λ f. f ≡ floor.now) }
{
    let leaves = Vec::from_slice(alloc, floor.leaves.as_slice())?;
    Ok(Floor {
        m: floor.m,
        leaves: Sequence::from_vec(leaves),
        side: floor.side,
    })
}

fn copied_proof(alloc: Global, proof: &Option<Refutation>) -> Result<Option<Refutation>, NoMemory>
    ensures { IfOk result (λ p. p ≡ proof.now) }
{
    match proof {
        None => Ok(None),
        Some(refutation) => Ok(Some(copied_refutation(alloc, refutation)?)),
    }
}

fn copied_refutation(alloc: Global, refutation: &Refutation) -> Result<Refutation, NoMemory>
    ensures { IfOk result (λ r. r ≡ refutation.now) }
{
    match refutation {
        Refutation::Split { pair, children } => {
            let mut copies = Vec::with_capacity(alloc, children.len())?;
            for child in children.as_slice() {
                copies.push(copied_refutation(alloc, child)?)?;
            }
            Ok(Refutation::Split {
                pair: *pair,
                children: Items::from_vec(copies),
            })
        }
        Refutation::Closed { claim } => Ok(Refutation::Closed {
            claim: claim.copy(),
        }),
        Refutation::Open { claim } => Ok(Refutation::Open {
            claim: claim.copy(),
        }),
    }
}
