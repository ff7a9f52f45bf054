ghost use Rattle.std.specs.Prelude.{◌≡◌};
ghost use Rattle.bp_tree.specs.Edges.{IsGrowing};
ghost use Rattle.bp_tree.specs.Faults.{IsOnlyAnswer, AnswersBytes};
ghost use Rattle.bp_tree.specs.Calls.{AddsLine, ReadsLines};
ghost use Rattle.bp_tree.specs.Growing.{no_nodes};
ghost use Rattle.bp_tree.specs.Reading.{ReadsEdges};
ghost use Rattle.bp_tree.specs.Json.{is_json};
ghost use Rattle.bp_tree.specs.Lines.{lines_of};

use crate::edge::edge_of;
use crate::fault::of_the_whole;
use crate::json::{is_json, read_json};
use crate::{Grower, ReadTree, TreeFault, TreeKind};
use bp_base::{MOST_TREE_BYTES, NoMemory, Tree};
use bp_text::line;
use std::alloc::Global;

/// The tree of bytes in lines or in the JSON form. A fault is the first one, and comes exactly where the bytes are those of no tree.
pub fn read_tree(alloc: Global, bytes: &[u8]) -> Result<Tree, ReadTree>
    ensures reads { AnswersBytes bytes.now result }
    ensures only { IsOnlyAnswer bytes.now result }
{
    if bytes.len() as u64 > MOST_TREE_BYTES {
        return Err(of_the_whole(TreeKind::TooLong));
    }
    let mut grower = match Grower::new(alloc) {
        Ok(grower) => grower,
        Err(NoMemory) => return Err(ReadTree::NoMemory),
    };
    match read_edges(alloc, &mut grower, bytes) {
        Ok(()) => {}
        Err(error) => return Err(error),
    }
    match grower.finish() {
        Ok(tree) => Ok(tree),
        Err(kind) => Err(of_the_whole(kind)),
    }
}

// Adds the edges of the bytes, in either form.
fn read_edges(alloc: Global, grower: &mut Grower, bytes: &[u8]) -> Result<(), ReadTree>
    requires none { grower.old ≡ no_nodes }
    requires growing { IsGrowing grower.old }
    ensures growing { IsGrowing grower.new }
    ensures edges { ReadsEdges (is_json bytes.now) bytes.now grower.new result }
{
    if is_json(bytes) {
        return read_json(alloc, grower, bytes);
    }
    match read_lines(grower, bytes) {
        Ok(()) => Ok(()),
        Err(fault) => Err(ReadTree::Fault(fault)),
    }
}

// Adds the edges of all lines.
fn read_lines(grower: &mut Grower, bytes: &[u8]) -> Result<(), TreeFault>
    requires none { grower.old ≡ no_nodes }
    requires growing { IsGrowing grower.old }
    ensures growing { IsGrowing grower.new }
    ensures lines { ReadsLines (lines_of bytes.now) grower.new result }
{
    let mut at = 0;
    let mut number = 0;
    while let Some(here) = line(bytes, at) {
        number += 1;
        if let Err(kind) = add_line(grower, &bytes[here.from as usize..here.to as usize]) {
            return Err(TreeFault { line: number, kind });
        }
        at = here.next;
    }
    Ok(())
}

fn add_line(grower: &mut Grower, line: &[u8]) -> Result<(), TreeKind>
    requires { IsGrowing grower.old }
    ensures growing { IsGrowing grower.new }
    ensures line { AddsLine grower.old line.now grower.new result }
{
    match edge_of(line)? {
        None => Ok(()),
        Some(edge) => grower.add(&edge),
    }
}
