// What a line does at any stage.
ghost use Rattle.std.specs.Prelude.{◌≡◌, None};
ghost use Rattle.bp_document.specs.declared.fault.DocKind.TheVariants.{Cut};
ghost use Rattle.bp_document.specs.Stages.{Cuts, IsPlain, Steps};

use crate::body_step::{feed_bound, feed_proof, feed_side};
use crate::edge_step::feed_edge;
use crate::node_step::step_node;
use crate::point_step::feed_point;
use crate::stage::{Fall, Stage, Step};
use crate::start_step::{feed_edge_count, feed_sheet, feed_version};
use crate::{DocKind, Head};
use std::alloc::Global;

/// What a line does, which has its LF or not.
pub fn take_line(alloc: Global, stage: Stage, bytes: &[u8], ended: bool) -> Result<Step, Fall>
    ensures { Steps stage bytes.now ended result }
{
    if !ended {
        return Err(cut(stage));
    }
    match stage {
        Stage::Version { memory } => plain(feed_version(memory, bytes)),
        Stage::Sheet { memory } => plain(feed_sheet(memory, bytes)),
        Stage::Edges { sheet, memory } => plain(feed_edge_count(sheet, memory, bytes)),
        Stage::Edge {
            sheet,
            count,
            left,
            memory,
        } => plain(feed_edge(sheet, count, left, memory, bytes)),
        Stage::Side { parts } => plain(feed_side(parts, bytes)),
        Stage::Bound { parts } => plain(feed_bound(parts, bytes)),
        Stage::Points { parts } => plain(feed_point(alloc, parts, bytes)),
        Stage::Proof { parts, m, side } => plain(feed_proof(parts, m, side, bytes)),
        Stage::Nodes { head, left, most } => step_node(alloc, head, left, most, bytes),
        Stage::Behind { head } => Err(fall(Some(head), DocKind::Trailing)),
        Stage::Broken { told } => Err(fall(told, DocKind::Trailing)),
    }
}

// The same as a step.
fn plain(fed: Result<Stage, DocKind>) -> Result<Step, Fall>
    ensures { IsPlain fed result }
{
    match fed {
        Ok(stage) => Ok(Step { stage, node: None }),
        Err(kind) => Err(Fall { head: None, kind }),
    }
}

// The fault of a line without its LF.
fn cut(stage: Stage) -> Fall
    ensures { Cuts stage result }
{
    match stage {
        Stage::Behind { head } => fall(Some(head), DocKind::Trailing),
        Stage::Broken { told } => fall(told, DocKind::Trailing),
        Stage::Nodes { head, .. } => fall(Some(head), DocKind::Cut),
        Stage::Version { memory } => untold(memory),
        Stage::Sheet { memory } => untold(memory),
        Stage::Edges { memory, .. } => untold(memory),
        Stage::Edge { memory, .. } => untold(memory),
        Stage::Side { parts } => untold(parts),
        Stage::Bound { parts } => untold(parts),
        Stage::Points { parts } => untold(parts),
        Stage::Proof { parts, .. } => untold(parts),
    }
}

// The same where no head is told. What the stage holds is dropped by the call: the proof of drops in place goes through all of it, stage
// by stage.
fn untold<T: Drop>(_held: T) -> Fall
    ensures { result ≡ record { head = None; kind = Cut } }
{
    fall(None, DocKind::Cut)
}

fn fall(head: Option<Head>, kind: DocKind) -> Fall
    ensures { result ≡ record { head = head; kind = kind } }
{
    Fall { head, kind }
}
