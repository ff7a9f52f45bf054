// What a line does at any stage.
ghost use Rattle.bp_certificate.specs.Stages.{Cuts, Steps, StepsOrCuts};

use crate::lemma_step::{feed_end, feed_lemma};
use crate::opening_step::{feed_body, feed_mirror, feed_sheet, feed_version};
use crate::plan_step::{feed_corner, feed_count, feed_swap, feed_swap_count};
use crate::stage::{Halt, Stage, Step};
use bp_document::DocKind;
use std::alloc::Global;

/// What a line does, which has its LF or not.
pub fn take_line(alloc: Global, stage: Stage, bytes: &[u8], ended: bool) -> Result<Step, Halt>
    ensures { StepsOrCuts stage bytes.now ended result }
{
    if ended {
        take_whole(alloc, stage, bytes)
    } else {
        let kind = cut(&stage);
        // Dropped by a call: the proof of a drop in place goes through all that a stage holds, branch by branch.
        drop(stage);
        Err(Halt::Fault(kind))
    }
}

// What a line with its LF does.
fn take_whole(alloc: Global, stage: Stage, bytes: &[u8]) -> Result<Step, Halt>
    ensures { Steps stage bytes.now result }
{
    match stage {
        Stage::Version { memory } => feed_version(memory, bytes),
        Stage::Sheet { memory } => feed_sheet(memory, bytes),
        Stage::Mirror { sheet, memory } => feed_mirror(sheet, memory, bytes),
        Stage::Body { stage } => feed_body(alloc, stage, bytes),
        Stage::Count { design } => feed_count(design, bytes),
        Stage::Corner { design, count } => feed_corner(design, count, bytes),
        Stage::SwapCount {
            design,
            count,
            corner,
        } => feed_swap_count(alloc, design, count, corner, bytes),
        Stage::Swaps {
            design,
            count,
            corner,
            total,
            swaps,
        } => feed_swap(alloc, design, count, corner, total, swaps, bytes),
        Stage::Lemmas { head, left } => feed_lemma(alloc, head, left, bytes),
        Stage::End { head } => feed_end(head, bytes),
        Stage::Behind { .. } => Err(Halt::Fault(DocKind::Trailing)),
        Stage::Broken => Err(Halt::Fault(DocKind::Trailing)),
    }
}

// The fault of a line without its LF.
fn cut(stage: &Stage) -> DocKind
    ensures { Cuts stage.now result }
{
    match stage {
        Stage::Behind { .. } => DocKind::Trailing,
        _ => DocKind::Cut,
    }
}
