// Lemmas that were learned, replayed before they are believed.
ghost use Rattle.std.specs.Prelude.{◌≤◌, All, IfOk, IfSome, map};
ghost use Rattle.bp_base.specs.Limits.{most_number};
ghost use Rattle.bp_arrangement.specs.Swaps.{IsAdmissible, IsCorner};
ghost use Rattle.bp_lemmas.specs.Proves.{Proves};
ghost use Rattle.bp_verify.specs.Certifies.{ProvesFrom, lemma_of};
ghost use Rattle.bp_solve.specs.Steps.{AreShown, IsFed};

use crate::ranges::have_small_codes;
use bp_arrangement::{Fact, Hint, first_inadmissible, is_corner};
use bp_base::{MOST_NUMBER, NoMemory, Pair, Sequence};
use bp_certificate::{Lemma, Lemmas};
use bp_learn::Proof;
use bp_metric::Metric;
use bp_replay::Replay;
use std::alloc::Global;

// The lemmas of a proof with their corner and swaps, where these prove the bound, and that is above the floor.
pub fn replayed(
    alloc: Global,
    metric: &Metric,
    floor: u64,
    bound: u64,
    corner: Pair,
    swaps: Sequence<Sequence<Pair>>,
    proof: Option<Proof>,
) -> Result<Option<Lemmas>, NoMemory>
    ensures { IfOk result (λ lemmas. AreShown metric.now.tree metric.now.sheet floor bound lemmas) }
{
    let Some(proof) = proof else {
        return Ok(None);
    };
    if bound <= floor {
        return Ok(None);
    }
    if bound > MOST_NUMBER {
        return Ok(None);
    }
    if !is_corner(metric, corner.i, corner.j) {
        return Ok(None);
    }
    match first_inadmissible(metric, corner.i, corner.j, swaps.as_slice()) {
        None => arranged(alloc, metric, bound, corner, swaps, &proof),
        Some(_) => Ok(None),
    }
}

// The same where the corner and the swaps arrange.
fn arranged(
    alloc: Global,
    metric: &Metric,
    bound: u64,
    corner: Pair,
    swaps: Sequence<Sequence<Pair>>,
    proof: &Proof,
) -> Result<Option<Lemmas>, NoMemory>
    requires bound { bound ≤ most_number }
    requires corner { IsCorner metric.now.tree corner.i corner.j }
    requires swaps { All (IsAdmissible metric.now.tree corner.i corner.j) swaps }
    ensures { IfOk result (λ lemmas. IfSome lemmas (λ L. ProvesFrom metric.now.tree metric.now.sheet bound L L.corner)) }
{
    let stood = standing(alloc, metric, bound, corner, swaps.as_slice(), proof)?;
    match stood {
        None => Ok(None),
        Some(lemmas) => Ok(Some(Lemmas {
            corner: Some(corner),
            swaps,
            lemmas,
        })),
    }
}

// The lemmas of a proof, where each stands on those before it and the last has no facts.
fn standing(
    alloc: Global,
    metric: &Metric,
    bound: u64,
    corner: Pair,
    swaps: &[Sequence<Pair>],
    proof: &Proof,
) -> Result<Option<Sequence<Lemma>>, NoMemory>
    requires bound { bound ≤ most_number }
    requires corner { IsCorner metric.now.tree corner.i corner.j }
    requires swaps { All (IsAdmissible metric.now.tree corner.i corner.j) swaps.now }
    ensures { IfOk result (λ lemmas. IfSome lemmas (λ ls. Proves metric.now.tree metric.now.sheet bound corner.i corner.j swaps.now (map lemma_of ls))) }
{
    let mut replay = Replay::open(alloc, metric, bound, corner, swaps)?;
    let mut lemmas = Sequence::new(alloc);
    for number in 0..proof.len() {
        let next = fed(alloc, &mut replay, proof.facts(number), proof.hints(number))?;
        let Some(lemma) = next else {
            return Ok(None);
        };
        lemmas.push(lemma)?;
    }
    if !replay.proved() {
        return Ok(None);
    }
    Ok(Some(lemmas))
}

// Feeds a lemma to the replay, and gives it where it stands.
fn fed(
    alloc: Global,
    replay: &mut Replay,
    facts: &[Fact],
    hints: &[Hint],
) -> Result<Option<Lemma>, NoMemory>
    ensures { IfOk result (λ lemma. IfSome lemma (λ l. IsFed replay.old l replay.new)) }
{
    if !have_small_codes(facts) {
        return Ok(None);
    }
    let stood = replay.feed(facts, hints)?;
    if !stood {
        return Ok(None);
    }
    let facts = Sequence::from_vec(Vec::from_slice(alloc, facts)?);
    let hints = Sequence::from_vec(Vec::from_slice(alloc, hints)?);
    Ok(Some(Lemma { facts, hints }))
}
