// The lines of side, bound and proof.
ghost use Rattle.std.specs.Prelude.{◌≡◌};
ghost use Rattle.bp_document.specs.Stages.{FeedsStage, IsOneMore, head_of};
ghost use Rattle.bp_document.specs.declared.stage.Stage.{Stage};

use crate::form::{field_of, proof_form};
use crate::stage::{Parts, Stage};
use crate::{DocKind, Head};
use bp_base::{Floor, MOST_NUMBER};

pub fn feed_side(parts: Parts, bytes: &[u8]) -> Result<Stage, DocKind>
    ensures stage { FeedsStage (Stage.Side parts) bytes.now result }
    ensures within { IsOneMore (Stage.Side parts) result }
{
    match field_of(bytes, b"side", 0, MOST_NUMBER) {
        None => Err(DocKind::BadForm),
        Some(side) => Ok(Stage::Bound {
            parts: Parts { side, ..parts },
        }),
    }
}

pub fn feed_bound(parts: Parts, bytes: &[u8]) -> Result<Stage, DocKind>
    ensures stage { FeedsStage (Stage.Bound parts) bytes.now result }
    ensures within { IsOneMore (Stage.Bound parts) result }
{
    match field_of(bytes, b"bound", 0, MOST_NUMBER) {
        None => Err(DocKind::BadForm),
        Some(bound) => Ok(Stage::Points {
            parts: Parts { bound, ..parts },
        }),
    }
}

/// The line before the nodes, behind a floor of `m` leaves with this side.
pub fn feed_proof(parts: Parts, m: u64, side: u64, bytes: &[u8]) -> Result<Stage, DocKind>
    ensures stage { FeedsStage (Stage.Proof parts m side) bytes.now result }
    ensures within { IsOneMore (Stage.Proof parts m side) result }
{
    match proof_form(bytes) {
        None => Err(DocKind::BadForm),
        Some(proof) => {
            let head = head_of(parts, m, side, proof);
            let left = proof.unwrap_or(0);
            let most = None;
            Ok(Stage::Nodes { head, left, most })
        }
    }
}

/// The head of these parts, with its floor and the number of its nodes.
pub fn head_of(parts: Parts, m: u64, side: u64, proof: Option<u64>) -> Head
    ensures { result ≡ record (head_of parts m side) { proof = proof } }
{
    let leaves = parts.leaves.into_sequence();
    Head {
        tree: parts.tree,
        side: parts.side,
        bound: parts.bound,
        points: parts.points.into_sequence(),
        floor: Floor { m, leaves, side },
        proof,
        sheet: parts.sheet,
    }
}
