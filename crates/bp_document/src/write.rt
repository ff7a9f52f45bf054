ghost use Rattle.std.specs.Prelude.{◌≡◌, ◌≤◌, ◌+◌, ◌<◌, ◌++◌, ◌∷◌, [], decimal, codes, length, filter, not};
ghost use Rattle.std.specs.List.{flat_map, range_with_len};
ghost use Rattle.std.specs.declared.option.Option.{Option};
ghost use Rattle.bp_base.specs.Causes.{HasCause};
ghost use Rattle.bp_base.specs.Tree.{edges, has_child, leaf_count, node_count};
ghost use Rattle.bp_document.specs.Lines.{edge_line, floor_line, line, sheet_line};
ghost use Rattle.bp_base.specs.Limits.{most_proof_lines};
ghost use Rattle.bp_metric.specs.Nodes.{node_count_of};
ghost use Rattle.bp_document.specs.Ranges.{HasProof, IsDocument, IsProof};
ghost use Rattle.bp_document.specs.Text.{body_text, doc_text, edge_lines, node_lines, point_lines, proof_lines};
ghost use Rattle.bp_text.specs.Puts.{Puts};

use crate::Document;
use crate::line::{put_edge, put_end, put_field, put_floor, put_keyword, put_sheet};
use crate::node::put_node;
use crate::points::put_points;
use bp_base::{Failed, Refutation, Sink, Tree};

/// Writes the document's text, in version 2. After `Failed` a prefix of it was appended.
pub fn write_document<K: Sink>(document: &Document, sink: &mut K) -> Result<(), Failed>
    requires { IsDocument document.now }
    ensures text { Puts (K.held sink.old) (K.held sink.new) result (doc_text document.now) }
    ensures cause { HasCause (K.faults sink.old) (K.faults sink.new) result }
{
    put_field(sink, b"boxpleat", 2)?;
    put_sheet(sink, document.sheet)?;
    put_body(sink, document)
}

// All lines after those of version and sheet.
fn put_body<K: Sink>(sink: &mut K, document: &Document) -> Result<(), Failed>
    requires { IsDocument document.now }
    ensures text { Puts (K.held sink.old) (K.held sink.new) result (body_text document.now) }
    ensures cause { HasCause (K.faults sink.old) (K.faults sink.new) result }
{
    put_start(sink, document)?;
    put_points(sink, &document.tree, document.points.as_slice())?;
    put_rest(sink, document)
}

// The lines before the points.
fn put_start<K: Sink>(sink: &mut K, document: &Document) -> Result<(), Failed>
    requires { IsDocument document.now }
    ensures text { Puts (K.held sink.old) (K.held sink.new) result (edge_lines document.now.tree ++ line (codes "side") (decimal document.now.side ∷ []) ++ line (codes "bound") (decimal document.now.bound ∷ [])) }
    ensures cause { HasCause (K.faults sink.old) (K.faults sink.new) result }
{
    put_edges(sink, &document.tree)?;
    put_field(sink, b"side", document.side)?;
    put_field(sink, b"bound", document.bound)
}

/// The lines of the edges.
pub fn put_edges<K: Sink>(sink: &mut K, tree: &Tree) -> Result<(), Failed>
    ensures text { Puts (K.held sink.old) (K.held sink.new) result (edge_lines tree.now) }
    ensures cause { HasCause (K.faults sink.old) (K.faults sink.new) result }
{
    put_field(sink, b"edges", tree.parents().len() as u64 - 1)?;
    put_each_edge(sink, tree)
}

fn put_each_edge<K: Sink>(sink: &mut K, tree: &Tree) -> Result<(), Failed>
    ensures text { Puts (K.held sink.old) (K.held sink.new) result (flat_map (edge_line tree.now) (edges tree.now)) }
    ensures cause { HasCause (K.faults sink.old) (K.faults sink.new) result }
{
    for edge in 1..tree.parents().len() as u64 {
        put_edge(sink, tree, edge)?;
    }
    Ok(())
}

// The lines after the points.
fn put_rest<K: Sink>(sink: &mut K, document: &Document) -> Result<(), Failed>
    requires { IsDocument document.now }
    ensures text { Puts (K.held sink.old) (K.held sink.new) result (floor_line document.now.floor ++ proof_lines document.now.proof ++ line (codes "end") []) }
    ensures cause { HasCause (K.faults sink.old) (K.faults sink.new) result }
{
    put_floor(sink, &document.floor)?;
    put_proof(sink, &document.proof)?;
    put_end(sink)
}

fn put_proof<K: Sink>(sink: &mut K, proof: &Option<Refutation>) -> Result<(), Failed>
    requires { HasProof proof.now }
    ensures text { Puts (K.held sink.old) (K.held sink.new) result (proof_lines proof.now) }
    ensures cause { HasCause (K.faults sink.old) (K.faults sink.new) result }
{
    match proof {
        None => put_keyword(sink, b"proof", b"none"),
        Some(refutation) => put_refutation(sink, refutation),
    }
}

fn put_refutation<K: Sink>(sink: &mut K, refutation: &Refutation) -> Result<(), Failed>
    requires { IsProof refutation.now }
    ensures text { Puts (K.held sink.old) (K.held sink.new) result (line (codes "proof") (decimal (node_count_of refutation.now) ∷ []) ++ node_lines refutation.now 0) }
    ensures cause { HasCause (K.faults sink.old) (K.faults sink.new) result }
{
    put_field(sink, b"proof", count_nodes(refutation))?;
    put_node(sink, refutation, 0)
}

// The number of nodes.
fn count_nodes(refutation: &Refutation) -> u64
    requires { node_count_of refutation.now ≤ most_proof_lines }
    ensures { result ≡ node_count_of refutation.now }
{
    match refutation {
        Refutation::Split { children, .. } => {
            let mut total = 1;
            for child in children.as_slice() {
                total += count_nodes(child);
            }
            total
        }
        Refutation::Closed { .. } => 1,
        Refutation::Open { .. } => 1,
    }
}
