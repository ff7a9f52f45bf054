// The lines of swaps and lemmas, each by its words.
ghost use Rattle.std.specs.Prelude.{IfOk, MatchOption};
ghost use Rattle.bp_certificate.specs.Words.{ReadsCorner, ReadsCount, AreFacts, AreNoFacts, ReadsHints, ReadsLemma, ReadsLemmaWords, ReadsPairWords, ReadsPairs, ReadsSwap};
ghost use Rattle.bp_document.specs.Words.{words, words_behind};

use crate::fact_form::{fact_of, hint_of};
use crate::{Lemma, MOST_FACTS, MOST_HINTS, MOST_LEMMAS, MOST_LINE_BYTES, MOST_SWAP_PAIRS};
use bp_arrangement::{Fact, Hint};
use bp_base::{NoMemory, Pair, Sequence};
use bp_document::{next_word, number_within, pair_of, split_word};
use bp_text::number;
use std::alloc::Global;

/// How many lemmas follow a line without its LF, or None for `lemmas none`. None exactly where it is no such line.
pub fn read_lemma_count(bytes: &[u8]) -> Option<Option<u64>>
    ensures { ReadsCount (words bytes.now) result }
{
    let (word, rest) = split_word(bytes);
    if word != b"lemmas".as_slice() {
        return None;
    }
    let (word, rest) = next_word(rest)?;
    if next_word(rest).is_some() {
        return None;
    }
    if word == b"none".as_slice() {
        return Some(None);
    }
    let count = number_within(word, 1, MOST_LEMMAS)?;
    Some(Some(count))
}

/// The corner of a line without its LF, or None for `corner none`. None exactly where it is no corner's.
pub fn read_corner(bytes: &[u8]) -> Option<Option<Pair>>
    ensures { ReadsCorner (words bytes.now) result }
{
    let (word, rest) = split_word(bytes);
    if word != b"corner".as_slice() {
        return None;
    }
    if let Some(pair) = pair_of(rest) {
        return Some(Some(pair));
    }
    let (word, rest) = next_word(rest)?;
    if word != b"none".as_slice() || next_word(rest).is_some() {
        return None;
    }
    Some(None)
}

/// The pairs of a swap's line without its LF. None exactly where it is no swap's.
pub fn read_swap(alloc: Global, bytes: &[u8]) -> Result<Option<Sequence<Pair>>, NoMemory>
    ensures { ReadsSwap (words bytes.now) result }
{
    let (word, rest) = split_word(bytes);
    if word != b"swap".as_slice() {
        return Ok(None);
    }
    pairs_of(alloc, rest)
}

// The pairs of the words behind the first space.
fn pairs_of(alloc: Global, bytes: &[u8]) -> Result<Option<Sequence<Pair>>, NoMemory>
    ensures { ReadsPairs (words_behind bytes.now) result }
{
    let mut pairs = Sequence::new(alloc);
    let mut rest = bytes;
    while let Some((first, more)) = next_word(rest) {
        let Some((second, more)) = next_word(more) else {
            return Ok(None);
        };
        let Some(pair) = pair_of_words(first, second) else {
            return Ok(None);
        };
        if pairs.len() as u64 == MOST_SWAP_PAIRS {
            return Ok(None);
        }
        pairs.push(pair)?;
        rest = more;
    }
    if pairs.len() == 0 {
        return Ok(None);
    }
    Ok(Some(pairs))
}

fn pair_of_words(first: &[u8], second: &[u8]) -> Option<Pair>
    ensures { ReadsPairWords first.now second.now result }
{
    let i = number(first)?;
    let j = number(second)?;
    Some(Pair { i, j })
}

/// The lemma of a line without its LF. None exactly where it is no lemma's; only memory may lack.
pub fn read_lemma(alloc: Global, bytes: &[u8]) -> Result<Option<Lemma>, NoMemory>
    ensures { ReadsLemma bytes.now result }
{
    if bytes.len() as u64 > MOST_LINE_BYTES {
        return Ok(None);
    }
    lemma_of(alloc, bytes)
}

// The lemma of a line's words.
fn lemma_of(alloc: Global, bytes: &[u8]) -> Result<Option<Lemma>, NoMemory>
    ensures { ReadsLemmaWords (words bytes.now) result }
{
    let (word, rest) = split_word(bytes);
    if word != b"no".as_slice() {
        return Ok(None);
    }
    let Some((facts, rest)) = facts_of(alloc, rest)? else {
        return Ok(None);
    };
    let Some(hints) = hints_of(alloc, rest)? else {
        return Ok(None);
    };
    Ok(Some(Lemma { facts, hints }))
}

// The facts of the words behind the first space up to `by`, and what follows that.
fn facts_of(alloc: Global, bytes: &[u8]) -> Result<Option<(Sequence<Fact>, &[u8])>, NoMemory>
    ensures { IfOk result (λ answer. MatchOption answer (AreNoFacts (words_behind bytes.now)) (λ parts. AreFacts (words_behind bytes.now) parts.0 (words_behind parts.1.now))) }
{
    let mut facts = Sequence::new(alloc);
    let mut rest = bytes;
    while let Some((word, more)) = next_word(rest) {
        if word == b"by".as_slice() {
            return Ok(Some((facts, more)));
        }
        let Some(fact) = fact_of(word) else {
            return Ok(None);
        };
        if facts.len() as u64 == MOST_FACTS {
            return Ok(None);
        }
        facts.push(fact)?;
        rest = more;
    }
    Ok(None)
}

// The hints of the words behind the first space.
fn hints_of(alloc: Global, bytes: &[u8]) -> Result<Option<Sequence<Hint>>, NoMemory>
    ensures { ReadsHints (words_behind bytes.now) result }
{
    let mut hints = Sequence::new(alloc);
    let mut rest = bytes;
    while let Some((word, more)) = next_word(rest) {
        let Some(hint) = hint_of(word) else {
            return Ok(None);
        };
        if hints.len() as u64 == MOST_HINTS {
            return Ok(None);
        }
        hints.push(hint)?;
        rest = more;
    }
    Ok(Some(hints))
}
