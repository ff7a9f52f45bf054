// What a run gives: a valid placement, and lemmas that are to be read again before they are believed.
ghost use Rattle.std.specs.Prelude.{◌≡◌, IfOk, length};
ghost use Rattle.bp_base.specs.Tree.{leaf_count};
ghost use Rattle.bp_metric.specs.Valid.{Valid};
ghost use Rattle.bp_learn.specs.Ended.{HasEnded};

use crate::layout::Layout;
use crate::proof::Proof;
use crate::run::search_all;
use crate::swaps::Swaps;
use bp_base::{NoMemory, Pair, Placement, Point, Sequence};
use bp_metric::Metric;
use bp_pairs::is_valid;
use std::alloc::Global;

/// What a run has found. Leaves are numbered from 1, lengths are in grid units.
#[derive(Drop)]
pub struct Learned {
    /// The best placement.
    pub placement: Placement,
    /// What the lemmas are to show, or the bound that the run began with.
    pub bound: u64,
    pub corner: Pair,
    pub swaps: Sequence<Sequence<Pair>>,
    /// None where the bound is the one that the run began with.
    pub proof: Option<Proof>,
    /// How many lemmas were learned in all that was tried.
    pub conflicts: u64,
}

// The layout as points, where they are a valid placement. A run tests what it finds; that they aren't never comes.
fn placement_of(alloc: Global, metric: &Metric, layout: &Layout) -> Result<Placement, NoMemory>
    ensures valid { IfOk result (λ p. Valid metric.now.tree metric.now.sheet 1 p.side p.points) }
    ensures side { IfOk result (λ p. p.side ≡ layout.now.side) }
{
    let mut points = Sequence::new(alloc);
    for leaf in 0..metric.leaves() {
        let leaf = (leaf % 256) as u8;
        points.push(Point {
            x: u64::from(layout.x(leaf)),
            y: u64::from(layout.y(leaf)),
        })?;
    }
    let side = u64::from(layout.side);
    match is_valid(metric, side, points.as_slice()) {
        Ok(()) => Ok(Placement { side, points }),
        Err(_) => Err(NoMemory),
    }
}

fn pair_of(pair: (u8, u8)) -> Pair {
    Pair {
        i: u64::from(pair.0).saturating_add(1),
        j: u64::from(pair.1).saturating_add(1),
    }
}

fn swap_of(alloc: Global, swaps: &Swaps, number: usize) -> Result<Sequence<Pair>, NoMemory> {
    let mut swap = Sequence::new(alloc);
    for at in 0..swaps.pair_count(number) {
        swap.push(pair_of(swaps.pair(number, at)))?;
    }
    Ok(swap)
}

fn swaps_of(alloc: Global, swaps: &Swaps) -> Result<Sequence<Sequence<Pair>>, NoMemory> {
    let mut list = Sequence::new(alloc);
    for number in 0..swaps.len() {
        list.push(swap_of(alloc, swaps, number)?)?;
    }
    Ok(list)
}

/// Searches the least side, from a bound that holds, in grid units, till bound and side meet or so many lemmas were learned. Nothing is
/// promised of the lemmas.
pub fn learn(alloc: Global, metric: &Metric, floor: u64, budget: u64) -> Result<Learned, NoMemory>
    ensures valid { IfOk result (λ r. Valid metric.now.tree metric.now.sheet 1 r.placement.side r.placement.points) }
    ensures ended { IfOk result (λ r. HasEnded r.bound r.placement.side r.conflicts budget) }
{
    let run = match search_all(alloc, metric, floor, budget) {
        Ok(run) => run,
        Err(_) => return Err(NoMemory),
    };
    let placement = placement_of(alloc, metric, &run.layout)?;
    let swaps = swaps_of(alloc, &run.swaps)?;
    Ok(Learned {
        placement,
        bound: run.bound,
        corner: pair_of(run.corner),
        swaps,
        proof: run.proof,
        conflicts: run.conflicts,
    })
}
