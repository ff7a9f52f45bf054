// Single lines of a document, written without memory.
ghost use Rattle.std.specs.Prelude.{◌≡◌, ◌<◌, ◌++◌, ◌∷◌, [], decimal, codes, map, length};
ghost use Rattle.std.specs.List.{flat_map};
ghost use Rattle.bp_base.specs.Causes.{HasCause};
ghost use Rattle.bp_base.specs.Tree.{IsEdge, name_of, node_count};
ghost use Rattle.bp_document.specs.Lines.{axis_word, edge_line, floor_line, line, point_line, sheet_line, split_line, word};
ghost use Rattle.bp_text.specs.Puts.{Puts};

use bp_base::{Axis, Chain, Failed, Floor, Pair, Point, Sheet, Sink, Tree};
use bp_text::{put, put_parts};
use itoa::Buffer;

/// A keyword and a word.
#[tactic(auto, unfolding(crate::specs::Lines::line))]
pub fn put_keyword<K: Sink>(sink: &mut K, keyword: &[u8], word: &[u8]) -> Result<(), Failed>
    ensures text { Puts (K.held sink.old) (K.held sink.new) result (line keyword.now (word.now ∷ [])) }
    ensures cause { HasCause (K.faults sink.old) (K.faults sink.new) result }
{
    put_parts(sink, &[keyword, b" ", word, b"\n"])
}

/// A keyword and a number.
pub fn put_field<K: Sink>(sink: &mut K, keyword: &[u8], number: u64) -> Result<(), Failed>
    ensures text { Puts (K.held sink.old) (K.held sink.new) result (line keyword.now (decimal number ∷ [])) }
    ensures cause { HasCause (K.faults sink.old) (K.faults sink.new) result }
{
    let mut buffer = Buffer::new();
    put_keyword(sink, keyword, buffer.format(number).as_bytes())
}

/// The line `end`.
#[tactic(auto, unfolding(crate::specs::Lines::line))]
pub fn put_end<K: Sink>(sink: &mut K) -> Result<(), Failed>
    ensures text { Puts (K.held sink.old) (K.held sink.new) result (line (codes "end") []) }
    ensures cause { HasCause (K.faults sink.old) (K.faults sink.new) result }
{
    put(sink, b"end\n")
}

/// The line of a sheet.
#[tactic(auto, unfolding(crate::specs::Lines::line))]
pub fn put_sheet<K: Sink>(sink: &mut K, sheet: Sheet) -> Result<(), Failed>
    ensures text { Puts (K.held sink.old) (K.held sink.new) result (sheet_line sheet) }
    ensures cause { HasCause (K.faults sink.old) (K.faults sink.new) result }
{
    match sheet {
        Sheet::Square => put(sink, b"sheet square\n"),
        Sheet::Strip { width } => put_strip(sink, width),
    }
}

fn put_strip<K: Sink>(sink: &mut K, width: u64) -> Result<(), Failed>
    ensures text { Puts (K.held sink.old) (K.held sink.new) result (line (codes "sheet") (codes "strip" ∷ decimal width ∷ [])) }
    ensures cause { HasCause (K.faults sink.old) (K.faults sink.new) result }
{
    let mut buffer = Buffer::new();
    put_two_words(sink, b"sheet", b"strip", buffer.format(width).as_bytes())
}

/// A keyword and two words.
#[tactic(auto, unfolding(crate::specs::Lines::line))]
pub fn put_two_words<K: Sink>(
    sink: &mut K,
    keyword: &[u8],
    first: &[u8],
    second: &[u8],
) -> Result<(), Failed>
    ensures text { Puts (K.held sink.old) (K.held sink.new) result (line keyword.now (first.now ∷ second.now ∷ [])) }
    ensures cause { HasCause (K.faults sink.old) (K.faults sink.new) result }
{
    put_parts(sink, &[keyword, b" ", first, b" ", second, b"\n"])
}

#[tactic(auto, unfolding(crate::specs::Lines::line))]
pub fn put_edge<K: Sink>(sink: &mut K, tree: &Tree, edge: u64) -> Result<(), Failed>
    requires { IsEdge tree.now edge }
    ensures text { Puts (K.held sink.old) (K.held sink.new) result (edge_line tree.now edge) }
    ensures cause { HasCause (K.faults sink.old) (K.faults sink.new) result }
{
    let upper = name_at(tree, tree.parents()[edge as usize]);
    let lower = name_at(tree, edge);
    let mut buffer = Buffer::new();
    let length = buffer.format(tree.lengths()[edge as usize]).as_bytes();
    put_parts(sink, &[b"edge ", upper, b" ", lower, b" ", length, b"\n"])
}

pub fn name_at(tree: &Tree, node: u64) -> &[u8]
    requires { node < node_count tree.now }
    ensures { result.now ≡ name_of tree.now node }
{
    tree.names()[node as usize].bytes()
}

#[tactic(auto, unfolding(crate::specs::Lines::line))]
pub fn put_point<K: Sink>(sink: &mut K, name: &[u8], point: Point) -> Result<(), Failed>
    ensures text { Puts (K.held sink.old) (K.held sink.new) result (point_line name.now point) }
    ensures cause { HasCause (K.faults sink.old) (K.faults sink.new) result }
{
    let mut x = Buffer::new();
    let mut y = Buffer::new();
    let x = x.format(point.x).as_bytes();
    let y = y.format(point.y).as_bytes();
    put_parts(sink, &[b"point ", name, b" ", x, b" ", y, b"\n"])
}

#[tactic(auto, unfolding(crate::specs::Lines::line))]
pub fn put_split<K: Sink>(sink: &mut K, depth: u64, pair: Pair) -> Result<(), Failed>
    ensures text { Puts (K.held sink.old) (K.held sink.new) result (split_line depth pair) }
    ensures cause { HasCause (K.faults sink.old) (K.faults sink.new) result }
{
    let mut buffer = Buffer::new();
    let mut i = Buffer::new();
    let mut j = Buffer::new();
    let depth = buffer.format(depth).as_bytes();
    let i = i.format(pair.i).as_bytes();
    let j = j.format(pair.j).as_bytes();
    put_parts(sink, &[depth, b" split ", i, b" ", j, b"\n"])
}

/// The letter of an axis.
pub fn axis_word(axis: Axis) -> &'static [u8]
    ensures { result.now ≡ axis_word axis }
{
    match axis {
        Axis::X => b"x",
        Axis::Y => b"y",
    }
}

// A number with a space before it.
fn put_spaced<K: Sink>(sink: &mut K, number: u64) -> Result<(), Failed>
    ensures text { Puts (K.held sink.old) (K.held sink.new) result (word (decimal number)) }
    ensures cause { HasCause (K.faults sink.old) (K.faults sink.new) result }
{
    let mut buffer = Buffer::new();
    put_parts(sink, &[b" ", buffer.format(number).as_bytes()])
}

fn put_numbers<K: Sink>(sink: &mut K, numbers: &[u64]) -> Result<(), Failed>
    ensures text { Puts (K.held sink.old) (K.held sink.new) result (flat_map word (map decimal numbers.now)) }
    ensures cause { HasCause (K.faults sink.old) (K.faults sink.new) result }
{
    for number in numbers {
        put_spaced(sink, *number)?;
    }
    Ok(())
}

pub fn put_chain<K: Sink>(sink: &mut K, chain: &Chain) -> Result<(), Failed>
    ensures text { Puts (K.held sink.old) (K.held sink.new) result (flat_map word (map decimal chain.now)) }
    ensures cause { HasCause (K.faults sink.old) (K.faults sink.new) result }
{
    for k in 0..chain.len() {
        put_spaced(sink, chain.at(k))?;
    }
    Ok(())
}

fn put_floor_start<K: Sink>(sink: &mut K, floor: &Floor) -> Result<(), Failed>
    ensures text { Puts (K.held sink.old) (K.held sink.new) result (codes "floor" ++ word (decimal floor.now.m) ++ word (decimal floor.now.side)) }
    ensures cause { HasCause (K.faults sink.old) (K.faults sink.new) result }
{
    let mut m = Buffer::new();
    let mut side = Buffer::new();
    let m = m.format(floor.m).as_bytes();
    let side = side.format(floor.side).as_bytes();
    put_parts(sink, &[b"floor ", m, b" ", side])
}

/// The line of a floor.
pub fn put_floor<K: Sink>(sink: &mut K, floor: &Floor) -> Result<(), Failed>
    ensures text { Puts (K.held sink.old) (K.held sink.new) result (floor_line floor.now) }
    ensures cause { HasCause (K.faults sink.old) (K.faults sink.new) result }
{
    put_floor_line(sink, floor, floor.leaves.as_slice())
}

fn put_floor_line<K: Sink>(sink: &mut K, floor: &Floor, leaves: &[u64]) -> Result<(), Failed>
    ensures text { Puts (K.held sink.old) (K.held sink.new) result (line (codes "floor") (decimal floor.now.m ∷ decimal floor.now.side ∷ map decimal leaves.now)) }
    ensures cause { HasCause (K.faults sink.old) (K.faults sink.new) result }
{
    put_floor_start(sink, floor)?;
    put_numbers(sink, leaves)?;
    put(sink, b"\n")
}
