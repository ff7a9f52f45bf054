// Point lines, one for each leaf.
ghost use Rattle.std.specs.Prelude.{◌≡◌, ◌≤◌, ◌<◌, length, MatchOption, slice_index};
ghost use Rattle.bp_base.specs.Limits.{most_leaves};
ghost use Rattle.bp_base.specs.Tree.{leaf_count, leaf_nodes, name_of, node_count};
ghost use Rattle.bp_document.specs.Feeding.{FeedsPoint};
ghost use Rattle.bp_document.specs.Stages.{FeedsStage, IsOneMore};
ghost use Rattle.bp_document.specs.declared.stage.Stage.{Stage};

use crate::DocKind;
use crate::form::{floor_form, point_form};
use crate::line::name_at;
use crate::points::has_child;
use crate::stage::{Parts, Stage};
use bp_base::{Point, Tree};
use std::alloc::Global;

/// The node of the leaf at this place, from 0 on. None exactly where there are no more leaves.
pub fn leaf_at(tree: &Tree, place: usize) -> Option<u64>
    ensures few { leaf_count tree.now ≤ most_leaves }
    ensures place { MatchOption result (leaf_count tree.now ≤ place) (λ node. (node < node_count tree.now) × (place < leaf_count tree.now) × (slice_index (leaf_nodes tree.now) place ≡ node)) }
{
    let mut leaves = 0;
    for node in 0..tree.parents().len() as u64 {
        if !has_child(tree, node) {
            if leaves == place {
                return Some(node);
            }
            leaves += 1;
        }
    }
    None
}

/// The point of a node's line. An Err is BadForm or BadPoint.
pub fn read_point(tree: &Tree, node: u64, bytes: &[u8]) -> Result<Point, DocKind>
    requires { node < node_count tree.now }
    ensures { FeedsPoint (name_of tree.now node) bytes.now result }
{
    let Some(form) = point_form(bytes) else {
        return Err(DocKind::BadForm);
    };
    if form.name.bytes() == name_at(tree, node) {
        Ok(form.point)
    } else {
        Err(DocKind::BadPoint)
    }
}

/// A point line, or where each leaf has a point the floor.
pub fn feed_point(alloc: Global, parts: Parts, bytes: &[u8]) -> Result<Stage, DocKind>
    ensures stage { FeedsStage (Stage.Points parts) bytes.now result }
    ensures within { IsOneMore (Stage.Points parts) result }
{
    let Some(node) = leaf_at(&parts.tree, parts.points.len()) else {
        return feed_floor(alloc, parts, bytes);
    };
    let point = read_point(&parts.tree, node, bytes)?;
    let mut parts = parts;
    parts.points.push(point);
    Ok(Stage::Points { parts })
}

// The floor line, behind a point for each leaf.
fn feed_floor(alloc: Global, parts: Parts, bytes: &[u8]) -> Result<Stage, DocKind>
    requires { leaf_count parts.tree ≤ length parts.points }
    ensures stage { FeedsStage (Stage.Points parts) bytes.now result }
    ensures within { IsOneMore (Stage.Points parts) result }
{
    let Some(form) = floor_form(alloc, bytes) else {
        return Err(DocKind::BadForm);
    };
    let mut parts = parts;
    parts.leaves.fill(&form.leaves);
    Ok(Stage::Proof {
        parts,
        m: form.m,
        side: form.side,
    })
}
