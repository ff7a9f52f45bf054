// The whole picture.
ghost use Rattle.std.specs.Prelude.{◌≡◌, ◌≤◌, ◌+◌, length};
ghost use Rattle.bp_base.specs.declared.point.Sheet.TheVariants.{Square};
ghost use Rattle.bp_base.specs.Causes.{HasCause};
ghost use Rattle.bp_base.specs.Limits.{most_number};
ghost use Rattle.bp_base.specs.Tree.{node_count};
ghost use Rattle.bp_metric.specs.Valid.{Valid};
ghost use Rattle.bp_picture.specs.PictureText.{corner_text, extent_text, frame_text, paper_text, picture_text, pixels, size_text, start_text, title_text};
ghost use Rattle.bp_text.specs.Puts.{Puts};

use crate::lines::put_lines;
use crate::outline::Outline;
use crate::region::put_regions;
use crate::tip::put_tips;
use bp_base::{Failed, Placement, Sink};
use bp_metric::Metric;
use bp_text::{Digits, put_parts};

/// Writes the picture of a placement of the metric's tree that is valid on a square, with its bound and the outlines of all edges.
/// After `Failed` a prefix of it was appended.
pub fn write_picture<K: Sink>(
    metric: &Metric,
    placement: &Placement,
    bound: u64,
    outlines: &[Outline],
    sink: &mut K,
) -> Result<(), Failed>
    requires side { placement.now.side ≤ most_number }
    requires valid { Valid metric.now.tree Square 1 placement.now.side placement.now.points }
    requires each { length outlines.now + 1 ≡ node_count metric.now.tree }
    ensures text { Puts (K.held sink.old) (K.held sink.new) result (picture_text metric.now.tree placement.now.side bound placement.now.points outlines.now) }
    ensures cause { HasCause (K.faults sink.old) (K.faults sink.new) result }
{
    let side = placement.side;
    put_start(sink, side, bound)?;
    put_regions(sink, metric.tree(), side, outlines)?;
    put_lines(sink, side, outlines)?;
    put_tips(sink, metric, side, placement.points.as_slice())
}

fn put_start<K: Sink>(sink: &mut K, side: u64, bound: u64) -> Result<(), Failed>
    requires { side ≤ most_number }
    ensures text { Puts (K.held sink.old) (K.held sink.new) result (start_text side bound) }
    ensures cause { HasCause (K.faults sink.old) (K.faults sink.new) result }
{
    put_frame(sink, side)?;
    put_title(sink, side, bound)?;
    put_paper(sink, side)
}

fn put_frame<K: Sink>(sink: &mut K, side: u64) -> Result<(), Failed>
    requires { side ≤ most_number }
    ensures text { Puts (K.held sink.old) (K.held sink.new) result (frame_text side) }
    ensures cause { HasCause (K.faults sink.old) (K.faults sink.new) result }
{
    put_size(sink, side)?;
    put_corner(sink, side)?;
    put_extent(sink, side)
}

#[tactic(auto, unfolding(crate::specs::PictureText::size_text))]
fn put_size<K: Sink>(sink: &mut K, side: u64) -> Result<(), Failed>
    requires { side ≤ most_number }
    ensures text { Puts (K.held sink.old) (K.held sink.new) result (size_text side) }
    ensures cause { HasCause (K.faults sink.old) (K.faults sink.new) result }
{
    let mut digits = Digits::new();
    let width = digits.of(pixels(side));
    put_parts(
        sink,
        &[
            b"<svg xmlns=\"http://www.w3.org/2000/svg\" width=\"",
            width,
            b"\" height=\"",
            width,
            b"\"",
        ],
    )
}

fn pixels(side: u64) -> u64
    requires { side ≤ most_number }
    ensures { result ≡ pixels side }
{
    (28 * side).max(840).min(2800)
}

#[tactic(auto, unfolding(crate::specs::PictureText::corner_text))]
fn put_corner<K: Sink>(sink: &mut K, side: u64) -> Result<(), Failed>
    requires { side ≤ most_number }
    ensures text { Puts (K.held sink.old) (K.held sink.new) result (corner_text side) }
    ensures cause { HasCause (K.faults sink.old) (K.faults sink.new) result }
{
    let mut digits = Digits::new();
    let margin = digits.of(60 * side);
    put_parts(sink, &[b" viewBox=\"-", margin, b" -", margin])
}

#[tactic(auto, unfolding(crate::specs::PictureText::extent_text))]
fn put_extent<K: Sink>(sink: &mut K, side: u64) -> Result<(), Failed>
    requires { side ≤ most_number }
    ensures text { Puts (K.held sink.old) (K.held sink.new) result (extent_text side) }
    ensures cause { HasCause (K.faults sink.old) (K.faults sink.new) result }
{
    let mut digits = Digits::new();
    let whole = digits.of(1120 * side);
    put_parts(sink, &[b" ", whole, b" ", whole, b"\">\n"])
}

#[tactic(auto, unfolding(crate::specs::PictureText::title_text))]
fn put_title<K: Sink>(sink: &mut K, side: u64, bound: u64) -> Result<(), Failed>
    ensures text { Puts (K.held sink.old) (K.held sink.new) result (title_text side bound) }
    ensures cause { HasCause (K.faults sink.old) (K.faults sink.new) result }
{
    let (mut first, mut second) = (Digits::new(), Digits::new());
    put_parts(
        sink,
        &[
            b"<title>side ",
            first.of(side),
            b" bound ",
            second.of(bound),
            b"</title>\n<g transform=\"scale(1000)\">\n",
        ],
    )
}

#[tactic(auto, unfolding(crate::specs::PictureText::paper_text))]
fn put_paper<K: Sink>(sink: &mut K, side: u64) -> Result<(), Failed>
    ensures text { Puts (K.held sink.old) (K.held sink.new) result (paper_text side) }
    ensures cause { HasCause (K.faults sink.old) (K.faults sink.new) result }
{
    let mut digits = Digits::new();
    let side = digits.of(side);
    put_parts(
        sink,
        &[
            b"<rect width=\"",
            side,
            b"\" height=\"",
            side,
            b"\" fill=\"#fff\"/>\n",
        ],
    )
}
