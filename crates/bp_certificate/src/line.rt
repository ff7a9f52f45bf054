// Single lines of a certificate, written without memory.
ghost use Rattle.std.specs.Prelude.{◌≡◌, ◌++◌, ◌∷◌, [], codes, decimal, map, Some};
ghost use Rattle.std.specs.List.{flat_map};
ghost use Rattle.bp_base.specs.Causes.{HasCause};
ghost use Rattle.bp_document.specs.Lines.{word};
ghost use Rattle.bp_text.specs.Puts.{Puts};
ghost use Rattle.bp_certificate.specs.Lines.{below_sign, corner_line, fact_word, hint_word, least_sign, lemma_line, pair_words, swap_line};

use crate::Lemma;
use bp_arrangement::{Fact, Hint};
use bp_base::{Failed, Pair, Sink};
use bp_document::{axis_word, put_keyword, put_two_words};
use bp_text::{put, put_parts};
use itoa::Buffer;

// A fact with a space before it.
#[tactic(auto, unfolding(crate::specs::Lines::fact_word))]
fn put_fact<K: Sink>(sink: &mut K, fact: Fact) -> Result<(), Failed>
    ensures text { Puts (K.held sink.old) (K.held sink.new) result (word (fact_word fact)) }
    ensures cause { HasCause (K.faults sink.old) (K.faults sink.new) result }
{
    match fact {
        Fact::Before {
            axis,
            first,
            second,
        } => put_order(sink, b" ", axis_word(axis), first, second),
        Fact::NotBefore {
            axis,
            first,
            second,
        } => put_order(sink, b" !", axis_word(axis), first, second),
        Fact::Least { axis, leaf, code } => {
            put_bound(sink, axis_word(axis), leaf, least_sign(code), code / 2)
        }
        Fact::Below { axis, leaf, code } => {
            put_bound(sink, axis_word(axis), leaf, below_sign(code), code / 2)
        }
    }
}

// The sign of a lower bound's code.
fn least_sign(code: u64) -> &'static [u8]
    ensures { result.now ≡ least_sign code }
{
    if code % 2 == 0 { b">=" } else { b">" }
}

// The sign of an upper bound's code.
fn below_sign(code: u64) -> &'static [u8]
    ensures { result.now ≡ below_sign code }
{
    if code % 2 == 0 { b"<" } else { b"<=" }
}

// The first leaf before the second, behind a mark.
fn put_order<K: Sink>(
    sink: &mut K,
    mark: &[u8],
    letter: &[u8],
    first: u64,
    second: u64,
) -> Result<(), Failed>
    ensures text { Puts (K.held sink.old) (K.held sink.new) result (mark.now ++ ((letter.now ++ decimal first) ++ (codes "<<" ++ (letter.now ++ decimal second)))) }
    ensures cause { HasCause (K.faults sink.old) (K.faults sink.new) result }
{
    let mut earlier = Buffer::new();
    let mut later = Buffer::new();
    let earlier = earlier.format(first).as_bytes();
    let later = later.format(second).as_bytes();
    put_parts(sink, &[mark, letter, earlier, b"<<", letter, later])
}

// A bound of a leaf's coordinate, behind a space.
fn put_bound<K: Sink>(
    sink: &mut K,
    letter: &[u8],
    leaf: u64,
    sign: &[u8],
    number: u64,
) -> Result<(), Failed>
    ensures text { Puts (K.held sink.old) (K.held sink.new) result (word ((letter.now ++ decimal leaf) ++ (sign.now ++ decimal number))) }
    ensures cause { HasCause (K.faults sink.old) (K.faults sink.new) result }
{
    let mut place = Buffer::new();
    let mut limit = Buffer::new();
    let place = place.format(leaf).as_bytes();
    let limit = limit.format(number).as_bytes();
    put_parts(sink, &[b" ", letter, place, sign, limit])
}

// A hint with a space before it.
#[tactic(auto, unfolding(crate::specs::Lines::hint_word))]
fn put_hint<K: Sink>(sink: &mut K, hint: Hint) -> Result<(), Failed>
    ensures text { Puts (K.held sink.old) (K.held sink.new) result (word (hint_word hint)) }
    ensures cause { HasCause (K.faults sink.old) (K.faults sink.new) result }
{
    match hint {
        Hint::Pair { pair } => put_two(sink, pair, b"-"),
        Hint::Lemma { number } => {
            let mut buffer = Buffer::new();
            put_parts(sink, &[b" ", buffer.format(number).as_bytes()])
        }
    }
}

// The two numbers of a pair behind a space, with a mark between them.
fn put_two<K: Sink>(sink: &mut K, pair: Pair, mark: &[u8]) -> Result<(), Failed>
    ensures text { Puts (K.held sink.old) (K.held sink.new) result (word (decimal pair.i ++ (mark.now ++ decimal pair.j))) }
    ensures cause { HasCause (K.faults sink.old) (K.faults sink.new) result }
{
    let mut i = Buffer::new();
    let mut j = Buffer::new();
    let i = i.format(pair.i).as_bytes();
    let j = j.format(pair.j).as_bytes();
    put_parts(sink, &[b" ", i, mark, j])
}

fn put_facts<K: Sink>(sink: &mut K, facts: &[Fact]) -> Result<(), Failed>
    ensures text { Puts (K.held sink.old) (K.held sink.new) result (flat_map word (map fact_word facts.now)) }
    ensures cause { HasCause (K.faults sink.old) (K.faults sink.new) result }
{
    for fact in facts {
        put_fact(sink, *fact)?;
    }
    Ok(())
}

fn put_hints<K: Sink>(sink: &mut K, hints: &[Hint]) -> Result<(), Failed>
    ensures text { Puts (K.held sink.old) (K.held sink.new) result (flat_map word (map hint_word hints.now)) }
    ensures cause { HasCause (K.faults sink.old) (K.faults sink.new) result }
{
    for hint in hints {
        put_hint(sink, *hint)?;
    }
    Ok(())
}

fn put_pairs<K: Sink>(sink: &mut K, swap: &[Pair]) -> Result<(), Failed>
    ensures text { Puts (K.held sink.old) (K.held sink.new) result (flat_map word (flat_map pair_words swap.now)) }
    ensures cause { HasCause (K.faults sink.old) (K.faults sink.new) result }
{
    for pair in swap {
        put_two(sink, *pair, b" ")?;
    }
    Ok(())
}

/// The line of a swap.
pub fn put_swap<K: Sink>(sink: &mut K, swap: &[Pair]) -> Result<(), Failed>
    ensures text { Puts (K.held sink.old) (K.held sink.new) result (swap_line swap.now) }
    ensures cause { HasCause (K.faults sink.old) (K.faults sink.new) result }
{
    put(sink, b"swap")?;
    put_pairs(sink, swap)?;
    put(sink, b"\n")
}

/// The line of a lemma.
pub fn put_lemma<K: Sink>(sink: &mut K, lemma: &Lemma) -> Result<(), Failed>
    ensures text { Puts (K.held sink.old) (K.held sink.new) result (lemma_line lemma.now) }
    ensures cause { HasCause (K.faults sink.old) (K.faults sink.new) result }
{
    put_denial(sink, lemma.facts.as_slice())?;
    put_hints(sink, lemma.hints.as_slice())?;
    put(sink, b"\n")
}

// A lemma's line up to its hints.
fn put_denial<K: Sink>(sink: &mut K, facts: &[Fact]) -> Result<(), Failed>
    ensures text { Puts (K.held sink.old) (K.held sink.new) result (codes "no" ++ (flat_map word (map fact_word facts.now) ++ codes " by")) }
    ensures cause { HasCause (K.faults sink.old) (K.faults sink.new) result }
{
    put(sink, b"no")?;
    put_facts(sink, facts)?;
    put(sink, b" by")
}

/// The line of a corner.
pub fn put_corner<K: Sink>(sink: &mut K, corner: Option<Pair>) -> Result<(), Failed>
    ensures text { Puts (K.held sink.old) (K.held sink.new) result (corner_line corner) }
    ensures cause { HasCause (K.faults sink.old) (K.faults sink.new) result }
{
    match corner {
        None => put_keyword(sink, b"corner", b"none"),
        Some(pair) => put_corner_pair(sink, pair),
    }
}

fn put_corner_pair<K: Sink>(sink: &mut K, pair: Pair) -> Result<(), Failed>
    ensures text { Puts (K.held sink.old) (K.held sink.new) result (corner_line (Some pair)) }
    ensures cause { HasCause (K.faults sink.old) (K.faults sink.new) result }
{
    let mut i = Buffer::new();
    let mut j = Buffer::new();
    let i = i.format(pair.i).as_bytes();
    let j = j.format(pair.j).as_bytes();
    put_two_words(sink, b"corner", i, j)
}
