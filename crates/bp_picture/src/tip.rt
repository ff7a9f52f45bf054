// The dot and the name of each tip.
ghost use Rattle.std.specs.Prelude.{◌≡◌, ◌≤◌};
ghost use Rattle.std.specs.List.{flat_map, range_with_len};
ghost use Rattle.bp_base.specs.declared.point.Sheet.TheVariants.{Square};
ghost use Rattle.bp_base.specs.Causes.{HasCause};
ghost use Rattle.bp_base.specs.Limits.{most_number};
ghost use Rattle.bp_base.specs.Point.{IsSmallPoint, point_at};
ghost use Rattle.bp_base.specs.Tree.{IsLeaf, leaf_count};
ghost use Rattle.bp_metric.specs.Valid.{Valid};
ghost use Rattle.bp_picture.specs.PictureText.{dot_text, label_text, last_text, name_text, place_text, tip_text, tips_head, tips_text};
ghost use Rattle.bp_text.specs.Puts.{Puts};

use crate::label::{Label, label_of};
use crate::region::name_at;
use bp_base::{Failed, Point, Sink};
use bp_metric::Metric;
use bp_text::{Digits, put, put_parts};

pub fn put_tips<K: Sink>(
    sink: &mut K,
    metric: &Metric,
    side: u64,
    points: &[Point],
) -> Result<(), Failed>
    requires side { side ≤ most_number }
    requires valid { Valid metric.now.tree Square 1 side points.now }
    ensures text { Puts (K.held sink.old) (K.held sink.new) result (tips_text metric.now.tree side points.now) }
    ensures cause { HasCause (K.faults sink.old) (K.faults sink.new) result }
{
    put_tips_head(sink)?;
    put_each_tip(sink, metric, side, points)?;
    put_last(sink)
}

#[tactic(auto, unfolding(crate::specs::PictureText::tips_head))]
fn put_tips_head<K: Sink>(sink: &mut K) -> Result<(), Failed>
    ensures text { Puts (K.held sink.old) (K.held sink.new) result tips_head }
    ensures cause { HasCause (K.faults sink.old) (K.faults sink.new) result }
{
    put(
        sink,
        b"<g fill=\"#1b2a33\" font-family=\"monospace\" text-anchor=\"middle\" pointer-events=\"none\">\n",
    )
}

fn put_each_tip<K: Sink>(
    sink: &mut K,
    metric: &Metric,
    side: u64,
    points: &[Point],
) -> Result<(), Failed>
    requires side { side ≤ most_number }
    requires valid { Valid metric.now.tree Square 1 side points.now }
    ensures text { Puts (K.held sink.old) (K.held sink.new) result (flat_map (tip_text metric.now.tree side points.now) (range_with_len 1 (leaf_count metric.now.tree))) }
    ensures cause { HasCause (K.faults sink.old) (K.faults sink.new) result }
{
    for leaf in 1..metric.leaves() + 1 {
        put_tip(sink, metric, side, points, leaf)?;
    }
    Ok(())
}

fn put_tip<K: Sink>(
    sink: &mut K,
    metric: &Metric,
    side: u64,
    points: &[Point],
    leaf: u64,
) -> Result<(), Failed>
    requires side { side ≤ most_number }
    requires valid { Valid metric.now.tree Square 1 side points.now }
    requires leaf { IsLeaf metric.now.tree leaf }
    ensures text { Puts (K.held sink.old) (K.held sink.new) result (tip_text metric.now.tree side points.now leaf) }
    ensures cause { HasCause (K.faults sink.old) (K.faults sink.new) result }
{
    let tree = metric.tree();
    let node = metric.leaf_node(leaf);
    let name = name_at(tree, node);
    let length = tree.lengths()[node as usize];
    let point = points[leaf as usize - 1];
    let label = label_of(side, length, name.len() as u64, point);
    put_label(sink, label, name)
}

fn put_label<K: Sink>(sink: &mut K, label: Label, name: &[u8]) -> Result<(), Failed>
    ensures text { Puts (K.held sink.old) (K.held sink.new) result (label_text label name.now) }
    ensures cause { HasCause (K.faults sink.old) (K.faults sink.new) result }
{
    put_dot(sink, label)?;
    put_place(sink, label)?;
    put_name(sink, label.size, name)
}

fn put_dot<K: Sink>(sink: &mut K, label: Label) -> Result<(), Failed>
    ensures text { Puts (K.held sink.old) (K.held sink.new) result (dot_text label) }
    ensures cause { HasCause (K.faults sink.old) (K.faults sink.new) result }
{
    let (mut x, mut y, mut dot) = (Digits::new(), Digits::new(), Digits::new());
    put_parts(
        sink,
        &[
            b"<circle cx=\"",
            x.of(label.x),
            b"\" cy=\"",
            y.of(label.y),
            b"\" r=\"",
            dot.of(label.dot),
            b"\"/>",
        ],
    )
}

fn put_place<K: Sink>(sink: &mut K, label: Label) -> Result<(), Failed>
    ensures text { Puts (K.held sink.old) (K.held sink.new) result (place_text label) }
    ensures cause { HasCause (K.faults sink.old) (K.faults sink.new) result }
{
    let (mut middle, mut line) = (Digits::new(), Digits::new());
    put_parts(
        sink,
        &[
            b"<text x=\"",
            middle.of(label.middle),
            b"\" y=\"",
            line.of(label.line),
            b"\"",
        ],
    )
}

fn put_name<K: Sink>(sink: &mut K, size: u64, name: &[u8]) -> Result<(), Failed>
    ensures text { Puts (K.held sink.old) (K.held sink.new) result (name_text size name.now) }
    ensures cause { HasCause (K.faults sink.old) (K.faults sink.new) result }
{
    let mut digits = Digits::new();
    put_parts(
        sink,
        &[
            b" font-size=\"",
            digits.of(size),
            b"\">",
            name,
            b"</text>\n",
        ],
    )
}

#[tactic(auto, unfolding(crate::specs::PictureText::last_text))]
fn put_last<K: Sink>(sink: &mut K) -> Result<(), Failed>
    ensures text { Puts (K.held sink.old) (K.held sink.new) result last_text }
    ensures cause { HasCause (K.faults sink.old) (K.faults sink.new) result }
{
    put(sink, b"</g>\n</svg>\n")
}
