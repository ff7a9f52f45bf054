// Node lines, each at a depth that fits behind the line before it.
ghost use Rattle.std.specs.Prelude.{◌≡◌, ◌≤◌, ◌↔◌, ℕ, true, IsTrue, Option};
ghost use Rattle.bp_base.specs.Limits.{most_number};
ghost use Rattle.bp_document.specs.Feeding.{FeedsNode};
ghost use Rattle.bp_document.specs.Places.{DepthFits, deepest};
ghost use Rattle.bp_document.specs.Stages.{Steps};
ghost use Rattle.bp_document.specs.declared.stage.Stage.{Stage};

use crate::node_line::read_node;
use crate::stage::{Fall, Stage, Step};
use crate::{DocKind, Head, NodeKind, NodeLine};
use bp_base::MOST_STEPS;
use std::alloc::Global;

/// The node of a line, where one as deep as `most` may stand, or the root. An Err is BadForm or BadDepth.
pub fn next_node(alloc: Global, most: Option<u64>, bytes: &[u8]) -> Result<NodeLine, DocKind>
    ensures { FeedsNode most bytes.now result }
{
    let Some(node) = read_node(alloc, bytes) else {
        return Err(DocKind::BadForm);
    };
    if !fits(most, node.depth) {
        return Err(DocKind::BadDepth);
    }
    Ok(node)
}

fn fits(most: Option<u64>, depth: u64) -> bool
    ensures { IsTrue result ↔ DepthFits most depth }
{
    match most {
        None => depth == 0,
        Some(most) => depth >= 1 && depth <= most && depth <= MOST_STEPS,
    }
}

/// How deep the line behind this one may be.
pub fn deepest(node: &NodeLine) -> u64
    requires { node.now.depth ≤ most_number }
    ensures { result ≡ deepest node.now.kind node.now.depth }
{
    match node.kind {
        NodeKind::Split { .. } => node.depth + 1,
        NodeKind::Closed { .. } => node.depth,
        NodeKind::Open { .. } => node.depth,
    }
}

/// A node line, or where none is left the end.
pub fn step_node(
    alloc: Global,
    head: Head,
    left: u64,
    most: Option<u64>,
    bytes: &[u8],
) -> Result<Step, Fall>
    ensures { Steps (Stage.Nodes head left most) bytes.now true result }
{
    if left == 0 {
        return step_end(head, bytes);
    }
    match next_node(alloc, most, bytes) {
        Err(kind) => Err(Fall {
            head: Some(head),
            kind,
        }),
        Ok(node) => {
            let most = Some(deepest(&node));
            let left = left - 1;
            Ok(Step {
                stage: Stage::Nodes { head, left, most },
                node: Some(node),
            })
        }
    }
}

// The line `end`.
fn step_end(head: Head, bytes: &[u8]) -> Result<Step, Fall>
    ensures { (most : Option ℕ) → Steps (Stage.Nodes head 0 most) bytes.now true result }
{
    if bytes == b"end".as_slice() {
        return Ok(Step {
            stage: Stage::Behind { head },
            node: None,
        });
    }
    Err(Fall {
        head: Some(head),
        kind: DocKind::BadForm,
    })
}
