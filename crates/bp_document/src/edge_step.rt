// Edge lines, each added to the tree so far.
ghost use Rattle.std.specs.Prelude.{OnOk};
ghost use Rattle.bp_tree.specs.Edges.{IsGrowing};
ghost use Rattle.bp_document.specs.Feeding.{FeedsEdge, FeedsLastEdge};
ghost use Rattle.bp_document.specs.Stages.{FeedsStage, IsOneMore};
ghost use Rattle.bp_document.specs.declared.stage.Stage.{Stage};

use crate::DocKind;
use crate::form::edge_form;
use crate::stage::{Memory, Parts, Stage};
use bp_base::{MOST_LENGTH, Sheet, Tree};
use bp_tree::Grower;

/// Adds the edge of a line. An Err is BadForm or BadTree.
pub fn add_edge(grower: &mut Grower, bytes: &[u8]) -> Result<(), DocKind>
    ensures growing { OnOk result (IsGrowing grower.new) }
    ensures edge { FeedsEdge grower.old bytes.now grower.new result }
{
    let Some(edge) = edge_form(bytes) else {
        return Err(DocKind::BadForm);
    };
    if edge.length < 1 || edge.length > MOST_LENGTH {
        return Err(DocKind::BadTree);
    }
    match grower.add(&edge) {
        Ok(()) => Ok(()),
        Err(_) => Err(DocKind::BadTree),
    }
}

/// Adds the edge of the last edge line, which makes the tree whole.
pub fn add_last_edge(grower: Grower, bytes: &[u8]) -> Result<Tree, DocKind>
    ensures { FeedsLastEdge grower bytes.now result }
{
    let mut grower = grower;
    add_edge(&mut grower, bytes)?;
    match grower.finish() {
        Ok(tree) => Ok(tree),
        Err(_) => Err(DocKind::BadTree),
    }
}

/// An edge line, where some are left of so many.
pub fn feed_edge(
    sheet: Sheet,
    count: u64,
    left: u64,
    memory: Memory,
    bytes: &[u8],
) -> Result<Stage, DocKind>
    ensures stage { FeedsStage (Stage.Edge sheet count left memory) bytes.now result }
    ensures within { IsOneMore (Stage.Edge sheet count left memory) result }
{
    let Memory {
        grower,
        points,
        leaves,
    } = memory;
    if left <= 1 {
        let tree = add_last_edge(grower, bytes)?;
        let parts = Parts {
            sheet,
            tree,
            side: 0,
            bound: 0,
            points,
            leaves,
        };
        return Ok(Stage::Side { parts });
    }
    let mut grower = grower;
    add_edge(&mut grower, bytes)?;
    let memory = Memory {
        grower,
        points,
        leaves,
    };
    let left = left - 1;
    Ok(Stage::Edge {
        sheet,
        count,
        left,
        memory,
    })
}
