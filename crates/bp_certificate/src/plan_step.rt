// The lines from the number of lemmas to the last swap.
ghost use Rattle.std.specs.Prelude.{◌≡◌};
ghost use Rattle.bp_certificate.specs.Places.{head_of};
ghost use Rattle.bp_certificate.specs.Stages.{IsAtSwaps, Steps};
ghost use Rattle.bp_certificate.specs.declared.stage.Stage.{Stage};

use crate::lemma_form::{read_corner, read_lemma_count, read_swap};
use crate::opening_step::on;
use crate::stage::{Halt, Stage, Step};
use crate::{CertificateHead, MOST_SWAPS, Plan};
use bp_base::{NoMemory, Pair, Sequence};
use bp_document::{DocKind, Head, field_of};
use std::alloc::Global;

pub fn feed_count(design: Head, bytes: &[u8]) -> Result<Step, Halt>
    ensures { Steps (Stage.Count design) bytes.now result }
{
    match read_lemma_count(bytes) {
        None => Err(Halt::Fault(DocKind::BadForm)),
        Some(None) => on(Stage::End {
            head: head_of(design, None),
        }),
        Some(Some(count)) => on(Stage::Corner { design, count }),
    }
}

pub fn feed_corner(design: Head, count: u64, bytes: &[u8]) -> Result<Step, Halt>
    ensures { Steps (Stage.Corner design count) bytes.now result }
{
    match read_corner(bytes) {
        None => Err(Halt::Fault(DocKind::BadForm)),
        Some(corner) => on(Stage::SwapCount {
            design,
            count,
            corner,
        }),
    }
}

pub fn feed_swap_count(
    alloc: Global,
    design: Head,
    count: u64,
    corner: Option<Pair>,
    bytes: &[u8],
) -> Result<Step, Halt>
    ensures { Steps (Stage.SwapCount design count corner) bytes.now result }
{
    match field_of(bytes, b"swaps", 0, MOST_SWAPS) {
        None => Err(Halt::Fault(DocKind::BadForm)),
        Some(total) => on(at_swaps(design, count, corner, total, Sequence::new(alloc))),
    }
}

pub fn feed_swap(
    alloc: Global,
    design: Head,
    count: u64,
    corner: Option<Pair>,
    total: u64,
    swaps: Sequence<Sequence<Pair>>,
    bytes: &[u8],
) -> Result<Step, Halt>
    ensures { Steps (Stage.Swaps design count corner total swaps) bytes.now result }
{
    match read_swap(alloc, bytes) {
        Err(NoMemory) => Err(Halt::NoMemory),
        Ok(None) => Err(Halt::Fault(DocKind::BadForm)),
        Ok(Some(swap)) => {
            let mut swaps = swaps;
            match swaps.push(swap) {
                Err(NoMemory) => Err(Halt::NoMemory),
                Ok(()) => on(at_swaps(design, count, corner, total, swaps)),
            }
        }
    }
}

// The next swap, or behind the last one the lemmas.
fn at_swaps(
    design: Head,
    count: u64,
    corner: Option<Pair>,
    total: u64,
    swaps: Sequence<Sequence<Pair>>,
) -> Stage
    ensures { IsAtSwaps design count corner total swaps result }
{
    if (swaps.len() as u64) < total {
        return Stage::Swaps {
            design,
            count,
            corner,
            total,
            swaps,
        };
    }
    let plan = Plan {
        count,
        corner,
        swaps,
    };
    Stage::Lemmas {
        head: head_of(design, Some(plan)),
        left: count,
    }
}

// The head of a design.
fn head_of(design: Head, plan: Option<Plan>) -> CertificateHead
    ensures { result ≡ head_of design plan }
{
    CertificateHead {
        tree: design.tree,
        sheet: design.sheet,
        side: design.side,
        bound: design.bound,
        points: design.points,
        floor: design.floor,
        plan,
    }
}
