// The regions of all edges.
ghost use Rattle.std.specs.Prelude.{◌≡◌, ◌+◌, ◌<◌, length};
ghost use Rattle.std.specs.List.{flat_map};
ghost use Rattle.bp_base.specs.Causes.{HasCause};
ghost use Rattle.bp_base.specs.Tree.{IsEdge, name_of, node_count};
ghost use Rattle.bp_picture.specs.PictureText.{fill_text, loop_text, outline_text, region_head, region_last, region_text, regions_text, turn_text};
ghost use Rattle.bp_text.specs.Puts.{Puts};

use crate::fill::{Fill, fill_of};
use crate::outline::Outline;
use bp_base::{Failed, Point, Sink, Tree};
use bp_contour::Loop;
use bp_text::{Digits, put, put_parts};

pub fn put_regions<K: Sink>(
    sink: &mut K,
    tree: &Tree,
    side: u64,
    outlines: &[Outline],
) -> Result<(), Failed>
    requires { length outlines.now + 1 ≡ node_count tree.now }
    ensures text { Puts (K.held sink.old) (K.held sink.new) result (regions_text tree.now side outlines.now) }
    ensures cause { HasCause (K.faults sink.old) (K.faults sink.new) result }
{
    for (k, outline) in outlines.iter().enumerate() {
        put_region(sink, tree, side, k as u64 + 1, outline.loops.as_slice())?;
    }
    Ok(())
}

fn put_region<K: Sink>(
    sink: &mut K,
    tree: &Tree,
    side: u64,
    edge: u64,
    loops: &[Loop],
) -> Result<(), Failed>
    requires { IsEdge tree.now edge }
    ensures text { Puts (K.held sink.old) (K.held sink.new) result (region_text tree.now side edge loops.now) }
    ensures cause { HasCause (K.faults sink.old) (K.faults sink.new) result }
{
    let name = name_at(tree, edge);
    put_region_head(sink, fill_of(tree, edge))?;
    put_outline(sink, side, loops)?;
    put_region_last(sink, name)
}

fn put_region_head<K: Sink>(sink: &mut K, fill: Fill) -> Result<(), Failed>
    ensures text { Puts (K.held sink.old) (K.held sink.new) result (region_head fill) }
    ensures cause { HasCause (K.faults sink.old) (K.faults sink.new) result }
{
    put(sink, b"<path fill=\"")?;
    put_fill(sink, fill)?;
    put(sink, b"\" fill-rule=\"evenodd\" d=\"")
}

fn put_fill<K: Sink>(sink: &mut K, fill: Fill) -> Result<(), Failed>
    ensures text { Puts (K.held sink.old) (K.held sink.new) result (fill_text fill) }
    ensures cause { HasCause (K.faults sink.old) (K.faults sink.new) result }
{
    let (mut red, mut green, mut blue) = (Digits::new(), Digits::new(), Digits::new());
    put_parts(
        sink,
        &[
            b"rgb(",
            red.of(fill.red),
            b",",
            green.of(fill.green),
            b",",
            blue.of(fill.blue),
            b")",
        ],
    )
}

#[tactic(auto, unfolding(crate::specs::PictureText::region_last))]
fn put_region_last<K: Sink>(sink: &mut K, name: &[u8]) -> Result<(), Failed>
    ensures text { Puts (K.held sink.old) (K.held sink.new) result (region_last name.now) }
    ensures cause { HasCause (K.faults sink.old) (K.faults sink.new) result }
{
    put_parts(sink, &[b"\"><title>", name, b"</title></path>\n"])
}

pub fn name_at(tree: &Tree, node: u64) -> &[u8]
    requires { node < node_count tree.now }
    ensures { result.now ≡ name_of tree.now node }
{
    tree.names()[node as usize].bytes()
}

/// All loops of an edge.
pub fn put_outline<K: Sink>(sink: &mut K, side: u64, loops: &[Loop]) -> Result<(), Failed>
    ensures text { Puts (K.held sink.old) (K.held sink.new) result (outline_text side loops.now) }
    ensures cause { HasCause (K.faults sink.old) (K.faults sink.new) result }
{
    for around in loops {
        put_loop(sink, side, around.points.as_slice())?;
    }
    Ok(())
}

fn put_loop<K: Sink>(sink: &mut K, side: u64, points: &[Point]) -> Result<(), Failed>
    ensures text { Puts (K.held sink.old) (K.held sink.new) result (loop_text side points.now) }
    ensures cause { HasCause (K.faults sink.old) (K.faults sink.new) result }
{
    put(sink, b"M")?;
    put_turns(sink, side, points)?;
    put(sink, b"Z")
}

fn put_turns<K: Sink>(sink: &mut K, side: u64, points: &[Point]) -> Result<(), Failed>
    ensures text { Puts (K.held sink.old) (K.held sink.new) result (flat_map (turn_text side) points.now) }
    ensures cause { HasCause (K.faults sink.old) (K.faults sink.new) result }
{
    for point in points {
        put_turn(sink, side, *point)?;
    }
    Ok(())
}

// The picture's y points down.
fn put_turn<K: Sink>(sink: &mut K, side: u64, point: Point) -> Result<(), Failed>
    ensures text { Puts (K.held sink.old) (K.held sink.new) result (turn_text side point) }
    ensures cause { HasCause (K.faults sink.old) (K.faults sink.new) result }
{
    let (mut x, mut y) = (Digits::new(), Digits::new());
    put_parts(
        sink,
        &[
            x.of(point.x),
            b" ",
            y.of(side.saturating_sub(point.y)),
            b" ",
        ],
    )
}
