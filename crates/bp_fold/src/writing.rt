// The FOLD text of a drawing, written without memory.
ghost use Rattle.std.specs.Prelude.{◌≡◌, ◌++◌, ◌∷◌, [], decimal, codes, map};
ghost use Rattle.std.specs.List.{flat_map};
ghost use Rattle.bp_base.specs.Causes.{HasCause};
ghost use Rattle.bp_fold.specs.FoldText.{commas, edge_text, edges_head, fold_text, head_text, last_text, lead_text, letter_text, letters_head, pair_text, point_text};
ghost use Rattle.bp_text.specs.Puts.{Puts};

use crate::drawing::{Drawing, Edge, Letter};
use bp_base::{Failed, Point, Sink};
use bp_text::{Digits, put, put_parts};

/// Writes the FOLD text. After `Failed` a prefix of it was appended.
pub fn write_fold<K: Sink>(drawing: &Drawing, sink: &mut K) -> Result<(), Failed>
    ensures text { Puts (K.held sink.old) (K.held sink.new) result (fold_text drawing.now) }
    ensures cause { HasCause (K.faults sink.old) (K.faults sink.new) result }
{
    put_head(sink, drawing.vertices.as_slice())?;
    put_edges(sink, drawing.edges.as_slice())?;
    put_letters(sink, drawing.letters.as_slice())
}

// All up to the last vertex.
fn put_head<K: Sink>(sink: &mut K, vertices: &[Point]) -> Result<(), Failed>
    ensures text { Puts (K.held sink.old) (K.held sink.new) result (head_text ++ commas (map point_text vertices.now)) }
    ensures cause { HasCause (K.faults sink.old) (K.faults sink.new) result }
{
    put_start(sink)?;
    put_points(sink, vertices)
}

#[tactic(auto, unfolding(crate::specs::FoldText::head_text))]
fn put_start<K: Sink>(sink: &mut K) -> Result<(), Failed>
    ensures text { Puts (K.held sink.old) (K.held sink.new) result head_text }
    ensures cause { HasCause (K.faults sink.old) (K.faults sink.new) result }
{
    put(
        sink,
        b"{\"file_spec\":1.1,\"file_creator\":\"boxpleat\",\"file_classes\":[\"singleModel\"],\"frame_classes\":[\"creasePattern\"],\"frame_attributes\":[\"2D\"],\"frame_unit\":\"unit\",\"vertices_coords\":[",
    )
}

// All from there up to the last edge.
fn put_edges<K: Sink>(sink: &mut K, edges: &[Edge]) -> Result<(), Failed>
    ensures text { Puts (K.held sink.old) (K.held sink.new) result (edges_head ++ commas (map edge_text edges.now)) }
    ensures cause { HasCause (K.faults sink.old) (K.faults sink.new) result }
{
    put_edges_head(sink)?;
    put_pairs(sink, edges)
}

#[tactic(auto, unfolding(crate::specs::FoldText::edges_head))]
fn put_edges_head<K: Sink>(sink: &mut K) -> Result<(), Failed>
    ensures text { Puts (K.held sink.old) (K.held sink.new) result edges_head }
    ensures cause { HasCause (K.faults sink.old) (K.faults sink.new) result }
{
    put(sink, b"],\"edges_vertices\":[")
}

// All from there on.
fn put_letters<K: Sink>(sink: &mut K, letters: &[Letter]) -> Result<(), Failed>
    ensures text { Puts (K.held sink.old) (K.held sink.new) result (letters_head ++ commas (map letter_text letters.now) ++ last_text) }
    ensures cause { HasCause (K.faults sink.old) (K.faults sink.new) result }
{
    put_letters_head(sink)?;
    put_each_letter(sink, letters)?;
    put_last(sink)
}

#[tactic(auto, unfolding(crate::specs::FoldText::letters_head))]
fn put_letters_head<K: Sink>(sink: &mut K) -> Result<(), Failed>
    ensures text { Puts (K.held sink.old) (K.held sink.new) result letters_head }
    ensures cause { HasCause (K.faults sink.old) (K.faults sink.new) result }
{
    put(sink, b"],\"edges_assignment\":[")
}

#[tactic(auto, unfolding(crate::specs::FoldText::last_text))]
fn put_last<K: Sink>(sink: &mut K) -> Result<(), Failed>
    ensures text { Puts (K.held sink.old) (K.held sink.new) result last_text }
    ensures cause { HasCause (K.faults sink.old) (K.faults sink.new) result }
{
    put(sink, b"]}\n")
}

fn put_points<K: Sink>(sink: &mut K, points: &[Point]) -> Result<(), Failed>
    ensures text { Puts (K.held sink.old) (K.held sink.new) result (commas (map point_text points.now)) }
    ensures cause { HasCause (K.faults sink.old) (K.faults sink.new) result }
{
    for (k, point) in points.iter().enumerate() {
        put_pair(sink, lead(k), point.x, point.y)?;
    }
    Ok(())
}

fn put_pairs<K: Sink>(sink: &mut K, edges: &[Edge]) -> Result<(), Failed>
    ensures text { Puts (K.held sink.old) (K.held sink.new) result (commas (map edge_text edges.now)) }
    ensures cause { HasCause (K.faults sink.old) (K.faults sink.new) result }
{
    for (k, edge) in edges.iter().enumerate() {
        put_pair(sink, lead(k), edge.from, edge.to)?;
    }
    Ok(())
}

fn put_each_letter<K: Sink>(sink: &mut K, letters: &[Letter]) -> Result<(), Failed>
    ensures text { Puts (K.held sink.old) (K.held sink.new) result (commas (map letter_text letters.now)) }
    ensures cause { HasCause (K.faults sink.old) (K.faults sink.new) result }
{
    for (k, letter) in letters.iter().enumerate() {
        put_letter(sink, lead(k), *letter)?;
    }
    Ok(())
}

// What stands before the part of this number: a comma, but nothing before the first part.
fn lead(k: usize) -> &'static [u8]
    ensures { result.now ≡ lead_text k }
{
    if k == 0 { b"" } else { b"," }
}

// A pair of numbers after a lead.
fn put_pair<K: Sink>(sink: &mut K, lead: &[u8], a: u64, b: u64) -> Result<(), Failed>
    ensures text { Puts (K.held sink.old) (K.held sink.new) result (lead.now ++ pair_text a b) }
    ensures cause { HasCause (K.faults sink.old) (K.faults sink.new) result }
{
    let mut first = Digits::new();
    let mut second = Digits::new();
    put_parts(sink, &[lead, b"[", first.of(a), b",", second.of(b), b"]"])
}

// A letter after a lead.
fn put_letter<K: Sink>(sink: &mut K, lead: &[u8], letter: Letter) -> Result<(), Failed>
    ensures text { Puts (K.held sink.old) (K.held sink.new) result (lead.now ++ letter_text letter) }
    ensures cause { HasCause (K.faults sink.old) (K.faults sink.new) result }
{
    match letter {
        Letter::Boundary => put_parts(sink, &[lead, b"\"B\""]),
        Letter::Unassigned => put_parts(sink, &[lead, b"\"U\""]),
    }
}
