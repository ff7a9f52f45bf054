// The smallest sheet for a tree, as far as the budget goes, by lemmas.
ghost use Rattle.std.specs.Prelude.{◌≡◌, ◌<◌, ◌≤◌, ℕ, IfOk, None, Some};
ghost use Rattle.bp_base.specs.declared.point.Sheet.{Sheet};
ghost use Rattle.bp_base.specs.Limits.{most_number};
ghost use Rattle.bp_base.specs.Tree.{TreeValue};
ghost use Rattle.bp_metric.specs.Valid.{Valid};
ghost use Rattle.bp_learn.specs.Ended.{HasEnded};
ghost use Rattle.bp_verify.specs.Certifies.{ProvesFrom};
ghost use Rattle.bp_solve.specs.Solved.{EndsBy, IsSolved};
ghost use Rattle.bp_solve.specs.Steps.{IsBest, IsEndWith, IsEndWithout, IsFloorOf, IsPlain, with_bound};

use crate::fitting::{plain_text, readable_text};
use crate::replaying::replayed;
use crate::{Ending, Solved};
use bp_base::{Floor, NoMemory, Placement};
use bp_certificate::{Certificate, Lemmas};
use bp_floor::floor;
use bp_learn::{Learned, learn};
use bp_metric::Metric;
use bp_opening::{one_opening, open};
use bp_verify::law_of_certificates;
use std::alloc::Global;

/// The smallest sheet for the metric's tree, of the metric's kind, with a certificate: the opening packing where that meets the floor, or
/// else what a search finds that learns as many lemmas as the budget says. What it learns is replayed before it is believed.
pub fn solve(alloc: Global, metric: &Metric, budget: u64) -> Result<Solved, NoMemory>
    ensures { IfOk result (λ s. IsSolved metric.now.tree metric.now.sheet budget s) }
{
    one_opening(metric);
    law_of_certificates(metric);
    let opening = open(alloc, metric)?;
    let floor = floor(alloc, metric)?;
    if opening.side <= floor.side {
        let certificate = plain(alloc, metric, opening, floor)?;
        return told(alloc, metric, certificate, 0, Ending::Met);
    }
    let learned = learn(alloc, metric, floor.side, budget)?;
    searched(alloc, metric, opening, floor, learned, budget)
}

// What a search has come to, as an answer.
fn searched(
    alloc: Global,
    metric: &Metric,
    opening: Placement,
    floor: Floor,
    learned: Learned,
    budget: u64,
) -> Result<Solved, NoMemory>
    requires opening { IsBest metric.now.tree metric.now.sheet opening }
    requires floor { IsFloorOf metric.now.tree metric.now.sheet floor }
    requires valid { Valid metric.now.tree metric.now.sheet 1 learned.placement.side learned.placement.points }
    requires ended { HasEnded learned.bound learned.placement.side learned.conflicts budget }
    ensures { IfOk result (λ s. IsSolved metric.now.tree metric.now.sheet budget s) }
{
    law_of_certificates(metric);
    let Learned {
        placement,
        bound,
        corner,
        swaps,
        proof,
        conflicts,
    } = learned;
    let found = better(opening, placement);
    let (side, least) = (found.side, floor.side);
    let plain = plain(alloc, metric, found, floor)?;
    let ending = ending_without(side, least, proof.is_some(), conflicts, budget);
    let trusted = replayed(alloc, metric, least, bound, corner, swaps, proof)?;
    match trusted {
        Some(lemmas) => shown(alloc, metric, plain, bound, lemmas, conflicts, budget),
        None => told(alloc, metric, plain, conflicts, ending),
    }
}

// How a run has ended whose certificate has no lemmas.
fn ending_without(side: u64, floor: u64, has_proof: bool, conflicts: u64, budget: u64) -> Ending
    requires { floor ≤ side }
    ensures { IsEndWithout side floor budget conflicts result }
{
    if side == floor {
        return Ending::Met;
    }
    if !has_proof && conflicts >= budget {
        return Ending::Spent;
    }
    Ending::Refused
}

// The placement of the lesser side.
fn better(first: Placement, second: Placement) -> Placement
    ensures valid { (T : TreeValue) (G : Sheet) → Valid T G 1 first.side first.points → Valid T G 1 second.side second.points → Valid T G 1 result.side result.points }
    ensures first { result.side ≤ first.side }
    ensures second { result.side ≤ second.side }
{
    if second.side < first.side {
        second
    } else {
        first
    }
}

// The certificate that shows no more than the floor.
fn plain(
    alloc: Global,
    metric: &Metric,
    placement: Placement,
    floor: Floor,
) -> Result<Certificate, NoMemory>
    requires placement { IsBest metric.now.tree metric.now.sheet placement }
    requires floor { IsFloorOf metric.now.tree metric.now.sheet floor }
    ensures plain { IfOk result (λ C. IsPlain metric.now.tree metric.now.sheet C) }
    ensures side { IfOk result (λ C. (C.side ≡ placement.side) × (C.bound ≡ floor.side)) }
{
    let tree = metric.tree().copy(alloc)?;
    Ok(Certificate {
        tree,
        sheet: metric.sheet(),
        side: placement.side,
        bound: floor.side,
        points: placement.points,
        floor,
        lemmas: None,
    })
}

// The answer with a certificate that shows no more than the floor.
fn told(
    alloc: Global,
    metric: &Metric,
    certificate: Certificate,
    conflicts: u64,
    ending: Ending,
) -> Result<Solved, NoMemory>
    requires { IsPlain metric.now.tree metric.now.sheet certificate }
    ensures { IfOk result (λ s. (B : ℕ) → EndsBy metric.now.tree B certificate conflicts ending → IsSolved metric.now.tree metric.now.sheet B s) }
{
    law_of_certificates(metric);
    let text = plain_text(alloc, &certificate)?;
    Ok(Solved {
        certificate,
        text,
        conflicts,
        ending,
    })
}

// The answer with a certificate whose bound these lemmas prove, or without them where it would be too long.
fn shown(
    alloc: Global,
    metric: &Metric,
    plain: Certificate,
    bound: u64,
    lemmas: Lemmas,
    conflicts: u64,
    budget: u64,
) -> Result<Solved, NoMemory>
    requires plain { IsPlain metric.now.tree metric.now.sheet plain }
    requires more { plain.bound < bound }
    requires small { bound ≤ most_number }
    requires proves { ProvesFrom metric.now.tree metric.now.sheet bound lemmas lemmas.corner }
    requires spent { bound < plain.side → budget ≤ conflicts }
    ensures { IfOk result (λ s. IsSolved metric.now.tree metric.now.sheet budget s) }
{
    law_of_certificates(metric);
    let certificate = with_lemmas(plain, bound, lemmas);
    let ending = ending_with(certificate.side, bound, conflicts, budget);
    let readable = readable_text(alloc, &certificate)?;
    match readable {
        Some(text) => Ok(Solved {
            certificate,
            text,
            conflicts,
            ending,
        }),
        None => {
            let bare = without_lemmas(certificate);
            told(alloc, metric, bare, conflicts, Ending::TooLong)
        }
    }
}

// How a run has ended whose certificate has lemmas.
fn ending_with(side: u64, bound: u64, conflicts: u64, budget: u64) -> Ending
    requires within { bound ≤ side }
    requires spent { bound < side → budget ≤ conflicts }
    ensures { IsEndWith side bound budget conflicts result }
{
    if bound < side {
        Ending::Spent
    } else {
        Ending::Met
    }
}

// The certificate of this bound, with its lemmas.
fn with_lemmas(plain: Certificate, bound: u64, lemmas: Lemmas) -> Certificate
    ensures { result ≡ with_bound plain bound (Some lemmas) }
{
    Certificate {
        bound,
        lemmas: Some(lemmas),
        ..plain
    }
}

// The certificate that shows no more than the floor.
fn without_lemmas(certificate: Certificate) -> Certificate
    ensures { result ≡ with_bound certificate certificate.floor.side None }
{
    Certificate {
        bound: certificate.floor.side,
        lemmas: None,
        ..certificate
    }
}
