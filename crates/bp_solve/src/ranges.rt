// Whether numbers, facts, hints, lemmas and swaps are within the ranges of a certificate's text.
ghost use Rattle.std.specs.Prelude.{◌↔◌, All, IfOk, IsTrue, Some};
ghost use Rattle.bp_certificate.specs.Ranges.{AreLemmas, AreSwaps, IsCornerLine, IsFactList, IsHintList, IsLemma, IsLemmaCount, IsSmallFact, IsSmallHint, IsSwapLine};
ghost use Rattle.bp_document.specs.Nodes.{IsPairOfNumbers};
ghost use Rattle.bp_replay.specs.Replays.{IsSmallCode};

use crate::text::is_short;
use bp_arrangement::{Fact, Hint};
use bp_base::{MOST_NUMBER, NoMemory, Pair, Sequence};
use bp_certificate::{
    Lemma, Lemmas, MOST_FACTS, MOST_HINTS, MOST_LEMMAS, MOST_SWAP_PAIRS, MOST_SWAPS,
};
use std::alloc::Global;

// The greatest code of a bound that a certificate tells.
const MOST_CODE: u64 = 2 * MOST_NUMBER + 1;

// Whether the codes of all bounds are such that a replay keeps.
pub fn have_small_codes(facts: &[Fact]) -> bool
    ensures { IsTrue result ↔ All IsSmallCode facts.now }
{
    facts.iter().all(|fact| has_small_code(*fact))
}

fn has_small_code(fact: Fact) -> bool
    ensures { IsTrue result ↔ IsSmallCode fact }
{
    match fact {
        Fact::Before { .. } => true,
        Fact::NotBefore { .. } => true,
        Fact::Least { code, .. } => code < 1 << 32,
        Fact::Below { code, .. } => code < 1 << 32,
    }
}

fn is_small_fact(fact: Fact) -> bool
    ensures { IsTrue result ↔ IsSmallFact fact }
{
    match fact {
        Fact::Before { first, second, .. } => first <= MOST_NUMBER && second <= MOST_NUMBER,
        Fact::NotBefore { first, second, .. } => first <= MOST_NUMBER && second <= MOST_NUMBER,
        Fact::Least { leaf, code, .. } => leaf <= MOST_NUMBER && code <= MOST_CODE,
        Fact::Below { leaf, code, .. } => leaf <= MOST_NUMBER && code <= MOST_CODE,
    }
}

fn is_small_pair(pair: Pair) -> bool
    ensures { IsTrue result ↔ IsPairOfNumbers pair }
{
    pair.i <= MOST_NUMBER && pair.j <= MOST_NUMBER
}

fn is_small_hint(hint: Hint) -> bool
    ensures { IsTrue result ↔ IsSmallHint hint }
{
    match hint {
        Hint::Pair { pair } => is_small_pair(pair),
        Hint::Lemma { number } => number <= MOST_NUMBER,
    }
}

fn are_facts(facts: &[Fact]) -> bool
    ensures { IsTrue result ↔ IsFactList facts.now }
{
    facts.len() as u64 <= MOST_FACTS && facts.iter().all(|fact| is_small_fact(*fact))
}

fn are_hints(hints: &[Hint]) -> bool
    ensures { IsTrue result ↔ IsHintList hints.now }
{
    hints.len() as u64 <= MOST_HINTS && hints.iter().all(|hint| is_small_hint(*hint))
}

fn is_lemma(alloc: Global, lemma: &Lemma) -> Result<bool, NoMemory>
    ensures { IfOk result (λ is. IsTrue is ↔ IsLemma lemma.now) }
{
    if !are_facts(lemma.facts.as_slice()) {
        return Ok(false);
    }
    if !are_hints(lemma.hints.as_slice()) {
        return Ok(false);
    }
    is_short(alloc, lemma)
}

fn are_each_lemma(alloc: Global, lemmas: &[Lemma]) -> Result<bool, NoMemory>
    ensures { IfOk result (λ are. IsTrue are ↔ All IsLemma lemmas.now) }
{
    for at in 0..lemmas.len() {
        let fits = is_lemma(alloc, &lemmas[at])?;
        if !fits {
            return Ok(false);
        }
    }
    Ok(true)
}

fn is_lemma_count(count: u64) -> bool
    ensures { IsTrue result ↔ IsLemmaCount count }
{
    count >= 1 && count <= MOST_LEMMAS
}

fn is_swap_line(swap: &[Pair]) -> bool
    ensures { IsTrue result ↔ IsSwapLine swap.now }
{
    let count = swap.len() as u64;
    count >= 1 && count <= MOST_SWAP_PAIRS && swap.iter().all(|pair| is_small_pair(*pair))
}

fn are_swaps(swaps: &[Sequence<Pair>]) -> bool
    ensures { IsTrue result ↔ AreSwaps swaps.now }
{
    swaps.len() as u64 <= MOST_SWAPS && swaps.iter().all(|swap| is_swap_line(swap.as_slice()))
}

fn is_corner_line(corner: Option<Pair>) -> bool
    ensures { IsTrue result ↔ IsCornerLine corner }
{
    match corner {
        None => true,
        Some(pair) => is_small_pair(pair),
    }
}

// Whether a certificate can tell the lemmas, where there are any.
pub fn can_tell(alloc: Global, lemmas: &Option<Lemmas>) -> Result<bool, NoMemory>
    ensures { IfOk result (λ can. IsTrue can ↔ AreLemmas lemmas.now) }
{
    match lemmas {
        None => Ok(true),
        Some(lemmas) => are_lemmas(alloc, lemmas),
    }
}

fn are_lemmas(alloc: Global, lemmas: &Lemmas) -> Result<bool, NoMemory>
    ensures { IfOk result (λ are. IsTrue are ↔ AreLemmas (Some lemmas.now)) }
{
    if !is_corner_line(lemmas.corner) {
        return Ok(false);
    }
    if !are_swaps(lemmas.swaps.as_slice()) {
        return Ok(false);
    }
    if !is_lemma_count(lemmas.lemmas.len() as u64) {
        return Ok(false);
    }
    are_each_lemma(alloc, lemmas.lemmas.as_slice())
}
