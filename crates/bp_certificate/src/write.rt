ghost use Rattle.std.specs.Prelude.{◌≡◌, ◌++◌, ◌∷◌, [], codes, decimal, length};
ghost use Rattle.std.specs.List.{flat_map};
ghost use Rattle.bp_base.specs.Causes.{HasCause};
ghost use Rattle.bp_base.specs.Tree.{leaf_count};
ghost use Rattle.bp_document.specs.Forms.{end_line};
ghost use Rattle.bp_document.specs.Lines.{floor_line, line};
ghost use Rattle.bp_document.specs.Text.{edge_lines};
ghost use Rattle.bp_text.specs.Puts.{Puts};
ghost use Rattle.bp_certificate.specs.Lines.{corner_line, count_line, lemma_line, swap_line};
ghost use Rattle.bp_certificate.specs.Text.{certificate_text, lemmas_text, opening_text, places_text, search_text, swap_lines};

use crate::line::{put_corner, put_lemma, put_swap};
use crate::{Certificate, Lemma, Lemmas};
use bp_base::{Failed, Pair, Sequence, Sheet, Sink};
use bp_document::{put_edges, put_end, put_field, put_floor, put_keyword, put_points, put_sheet};

/// Writes the certificate's text. After `Failed` a prefix of it was appended. It takes no memory.
pub fn write_certificate<K: Sink>(certificate: &Certificate, sink: &mut K) -> Result<(), Failed>
    requires each { length certificate.now.points ≡ leaf_count certificate.now.tree }
    ensures text { Puts (K.held sink.old) (K.held sink.new) result (certificate_text certificate.now) }
    ensures cause { HasCause (K.faults sink.old) (K.faults sink.new) result }
{
    put_opening(sink, certificate.sheet)?;
    put_places(sink, certificate)?;
    put_rest(sink, certificate)
}

// The lines of version, sheet and mirror.
fn put_opening<K: Sink>(sink: &mut K, sheet: Sheet) -> Result<(), Failed>
    ensures text { Puts (K.held sink.old) (K.held sink.new) result (opening_text sheet) }
    ensures cause { HasCause (K.faults sink.old) (K.faults sink.new) result }
{
    put_field(sink, b"boxpleat", 3)?;
    put_sheet(sink, sheet)?;
    put_keyword(sink, b"mirror", b"none")
}

// The lines from those of the edges to those of the points.
fn put_places<K: Sink>(sink: &mut K, certificate: &Certificate) -> Result<(), Failed>
    requires { length certificate.now.points ≡ leaf_count certificate.now.tree }
    ensures text { Puts (K.held sink.old) (K.held sink.new) result (places_text certificate.now) }
    ensures cause { HasCause (K.faults sink.old) (K.faults sink.new) result }
{
    put_sizes(sink, certificate)?;
    put_points(sink, &certificate.tree, certificate.points.as_slice())
}

// The lines of the edges, the side and the bound.
fn put_sizes<K: Sink>(sink: &mut K, certificate: &Certificate) -> Result<(), Failed>
    ensures text { Puts (K.held sink.old) (K.held sink.new) result (edge_lines certificate.now.tree ++ (line (codes "side") (decimal certificate.now.side ∷ []) ++ line (codes "bound") (decimal certificate.now.bound ∷ []))) }
    ensures cause { HasCause (K.faults sink.old) (K.faults sink.new) result }
{
    put_edges(sink, &certificate.tree)?;
    put_field(sink, b"side", certificate.side)?;
    put_field(sink, b"bound", certificate.bound)
}

// The lines from the floor on.
fn put_rest<K: Sink>(sink: &mut K, certificate: &Certificate) -> Result<(), Failed>
    ensures text { Puts (K.held sink.old) (K.held sink.new) result (floor_line certificate.now.floor ++ (lemmas_text certificate.now.lemmas ++ end_line)) }
    ensures cause { HasCause (K.faults sink.old) (K.faults sink.new) result }
{
    put_floor(sink, &certificate.floor)?;
    put_lemmas(sink, &certificate.lemmas)?;
    put_end(sink)
}

fn put_lemmas<K: Sink>(sink: &mut K, lemmas: &Option<Lemmas>) -> Result<(), Failed>
    ensures text { Puts (K.held sink.old) (K.held sink.new) result (lemmas_text lemmas.now) }
    ensures cause { HasCause (K.faults sink.old) (K.faults sink.new) result }
{
    match lemmas {
        None => put_keyword(sink, b"lemmas", b"none"),
        Some(lemmas) => put_search(sink, lemmas),
    }
}

fn put_search<K: Sink>(sink: &mut K, lemmas: &Lemmas) -> Result<(), Failed>
    ensures text { Puts (K.held sink.old) (K.held sink.new) result (search_text lemmas.now) }
    ensures cause { HasCause (K.faults sink.old) (K.faults sink.new) result }
{
    put_field(sink, b"lemmas", lemmas.lemmas.len() as u64)?;
    put_corner(sink, lemmas.corner)?;
    put_arranged(sink, lemmas)
}

// The lines of the swaps and lemmas.
fn put_arranged<K: Sink>(sink: &mut K, lemmas: &Lemmas) -> Result<(), Failed>
    ensures text { Puts (K.held sink.old) (K.held sink.new) result (swap_lines lemmas.now.swaps ++ flat_map lemma_line lemmas.now.lemmas) }
    ensures cause { HasCause (K.faults sink.old) (K.faults sink.new) result }
{
    put_swaps(sink, lemmas.swaps.as_slice())?;
    put_each_lemma(sink, lemmas.lemmas.as_slice())
}

fn put_swaps<K: Sink>(sink: &mut K, swaps: &[Sequence<Pair>]) -> Result<(), Failed>
    ensures text { Puts (K.held sink.old) (K.held sink.new) result (swap_lines swaps.now) }
    ensures cause { HasCause (K.faults sink.old) (K.faults sink.new) result }
{
    put_field(sink, b"swaps", swaps.len() as u64)?;
    put_each_swap(sink, swaps)
}

fn put_each_swap<K: Sink>(sink: &mut K, swaps: &[Sequence<Pair>]) -> Result<(), Failed>
    ensures text { Puts (K.held sink.old) (K.held sink.new) result (flat_map swap_line swaps.now) }
    ensures cause { HasCause (K.faults sink.old) (K.faults sink.new) result }
{
    for swap in swaps {
        put_swap(sink, swap.as_slice())?;
    }
    Ok(())
}

fn put_each_lemma<K: Sink>(sink: &mut K, lemmas: &[Lemma]) -> Result<(), Failed>
    ensures text { Puts (K.held sink.old) (K.held sink.new) result (flat_map lemma_line lemmas.now) }
    ensures cause { HasCause (K.faults sink.old) (K.faults sink.new) result }
{
    for lemma in lemmas {
        put_lemma(sink, lemma)?;
    }
    Ok(())
}
