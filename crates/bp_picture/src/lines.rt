// Grid, hinges and border.
ghost use Rattle.std.specs.Prelude.{◌≡◌, ◌≤◌, ◌<◌, ◌*◌, ◌-◌};
ghost use Rattle.std.specs.List.{flat_map, range_with_len};
ghost use Rattle.bp_base.specs.Causes.{HasCause};
ghost use Rattle.bp_base.specs.Limits.{most_number};
ghost use Rattle.bp_picture.specs.declared.outline.Outline.{Outline as AnyOutline};
ghost use Rattle.bp_picture.specs.PictureText.{border_size, border_text, grid_head, grid_line, grid_path, grid_text, hinges_head, hinges_text, level_line, lines_head, lines_text, outline_text, path_last, thousandths, three_digits, upright_line};
ghost use Rattle.bp_text.specs.Puts.{Puts};

use crate::outline::Outline;
use crate::region::put_outline;
use bp_base::{Failed, Sink};
use bp_text::{Digits, put, put_parts};

pub fn put_lines<K: Sink>(sink: &mut K, side: u64, outlines: &[Outline]) -> Result<(), Failed>
    requires { side ≤ most_number }
    ensures text { Puts (K.held sink.old) (K.held sink.new) result (lines_text side outlines.now) }
    ensures cause { HasCause (K.faults sink.old) (K.faults sink.new) result }
{
    put_lines_head(sink)?;
    put_grid(sink, side)?;
    put_hinges(sink, side, outlines)?;
    put_border(sink, side)
}

#[tactic(auto, unfolding(crate::specs::PictureText::lines_head))]
fn put_lines_head<K: Sink>(sink: &mut K) -> Result<(), Failed>
    ensures text { Puts (K.held sink.old) (K.held sink.new) result lines_head }
    ensures cause { HasCause (K.faults sink.old) (K.faults sink.new) result }
{
    put(sink, b"<g fill=\"none\" pointer-events=\"none\">\n")
}

fn put_grid<K: Sink>(sink: &mut K, side: u64) -> Result<(), Failed>
    ensures text { Puts (K.held sink.old) (K.held sink.new) result (grid_text side) }
    ensures cause { HasCause (K.faults sink.old) (K.faults sink.new) result }
{
    if side <= 64 {
        put_grid_path(sink, side)
    } else {
        Ok(())
    }
}

fn put_grid_path<K: Sink>(sink: &mut K, side: u64) -> Result<(), Failed>
    ensures text { Puts (K.held sink.old) (K.held sink.new) result (grid_path side) }
    ensures cause { HasCause (K.faults sink.old) (K.faults sink.new) result }
{
    put_grid_head(sink, side)?;
    put_grid_lines(sink, side)?;
    put_path_last(sink)
}

fn put_grid_head<K: Sink>(sink: &mut K, side: u64) -> Result<(), Failed>
    ensures text { Puts (K.held sink.old) (K.held sink.new) result (grid_head side) }
    ensures cause { HasCause (K.faults sink.old) (K.faults sink.new) result }
{
    put(
        sink,
        b"<path stroke=\"#000\" stroke-opacity=\"0.1\" stroke-width=\"",
    )?;
    put_thousandths(sink, side)?;
    put(sink, b"\" d=\"")
}

fn put_grid_lines<K: Sink>(sink: &mut K, side: u64) -> Result<(), Failed>
    ensures text { Puts (K.held sink.old) (K.held sink.new) result (flat_map (grid_line side) (range_with_len 1 (side - 1))) }
    ensures cause { HasCause (K.faults sink.old) (K.faults sink.new) result }
{
    for k in 1..side {
        put_grid_line(sink, side, k)?;
    }
    Ok(())
}

fn put_grid_line<K: Sink>(sink: &mut K, side: u64, k: u64) -> Result<(), Failed>
    ensures text { Puts (K.held sink.old) (K.held sink.new) result (grid_line side k) }
    ensures cause { HasCause (K.faults sink.old) (K.faults sink.new) result }
{
    put_upright(sink, side, k)?;
    put_level(sink, side, k)
}

fn put_upright<K: Sink>(sink: &mut K, side: u64, k: u64) -> Result<(), Failed>
    ensures text { Puts (K.held sink.old) (K.held sink.new) result (upright_line side k) }
    ensures cause { HasCause (K.faults sink.old) (K.faults sink.new) result }
{
    let (mut first, mut second) = (Digits::new(), Digits::new());
    put_parts(sink, &[b"M", first.of(k), b" 0V", second.of(side)])
}

fn put_level<K: Sink>(sink: &mut K, side: u64, k: u64) -> Result<(), Failed>
    ensures text { Puts (K.held sink.old) (K.held sink.new) result (level_line side k) }
    ensures cause { HasCause (K.faults sink.old) (K.faults sink.new) result }
{
    let (mut first, mut second) = (Digits::new(), Digits::new());
    put_parts(sink, &[b"M0 ", first.of(k), b"H", second.of(side)])
}

#[tactic(auto, unfolding(crate::specs::PictureText::path_last))]
fn put_path_last<K: Sink>(sink: &mut K) -> Result<(), Failed>
    ensures text { Puts (K.held sink.old) (K.held sink.new) result path_last }
    ensures cause { HasCause (K.faults sink.old) (K.faults sink.new) result }
{
    put(sink, b"\"/>\n")
}

fn put_hinges<K: Sink>(sink: &mut K, side: u64, outlines: &[Outline]) -> Result<(), Failed>
    requires { side ≤ most_number }
    ensures text { Puts (K.held sink.old) (K.held sink.new) result (hinges_text side outlines.now) }
    ensures cause { HasCause (K.faults sink.old) (K.faults sink.new) result }
{
    put_hinges_head(sink, side)?;
    put_outlines(sink, side, outlines)?;
    put_path_last(sink)
}

fn put_hinges_head<K: Sink>(sink: &mut K, side: u64) -> Result<(), Failed>
    requires { side ≤ most_number }
    ensures text { Puts (K.held sink.old) (K.held sink.new) result (hinges_head side) }
    ensures cause { HasCause (K.faults sink.old) (K.faults sink.new) result }
{
    put(sink, b"<path stroke=\"#2f4858\" stroke-width=\"")?;
    put_thousandths(sink, 2 * side)?;
    put(sink, b"\" d=\"")
}

fn put_outlines<K: Sink>(sink: &mut K, side: u64, outlines: &[Outline]) -> Result<(), Failed>
    ensures text { Puts (K.held sink.old) (K.held sink.new) result (flat_map (λ (o : AnyOutline). outline_text side o.loops) outlines.now) }
    ensures cause { HasCause (K.faults sink.old) (K.faults sink.new) result }
{
    for outline in outlines {
        put_outline(sink, side, outline.loops.as_slice())?;
    }
    Ok(())
}

fn put_border<K: Sink>(sink: &mut K, side: u64) -> Result<(), Failed>
    requires { side ≤ most_number }
    ensures text { Puts (K.held sink.old) (K.held sink.new) result (border_text side) }
    ensures cause { HasCause (K.faults sink.old) (K.faults sink.new) result }
{
    put_border_size(sink, side)?;
    put_thousandths(sink, 4 * side)?;
    put(sink, b"\"/>\n</g>\n</g>\n")
}

#[tactic(auto, unfolding(crate::specs::PictureText::border_size))]
fn put_border_size<K: Sink>(sink: &mut K, side: u64) -> Result<(), Failed>
    ensures text { Puts (K.held sink.old) (K.held sink.new) result (border_size side) }
    ensures cause { HasCause (K.faults sink.old) (K.faults sink.new) result }
{
    let mut digits = Digits::new();
    let side = digits.of(side);
    put_parts(
        sink,
        &[
            b"<rect width=\"",
            side,
            b"\" height=\"",
            side,
            b"\" stroke=\"#1b2a33\" stroke-width=\"",
        ],
    )
}

// So many thousandths as a decimal.
#[tactic(auto, unfolding(crate::specs::PictureText::thousandths))]
fn put_thousandths<K: Sink>(sink: &mut K, count: u64) -> Result<(), Failed>
    ensures text { Puts (K.held sink.old) (K.held sink.new) result (thousandths count) }
    ensures cause { HasCause (K.faults sink.old) (K.faults sink.new) result }
{
    let mut digits = Digits::new();
    let rest = three_digits(count % 1000);
    put_parts(sink, &[digits.of(count / 1000), b".", &rest])
}

#[tactic(auto, unfolding(crate::specs::PictureText::three_digits))]
fn three_digits(number: u64) -> [u8; 3]
    requires { number < 1000 }
    ensures { result ≡ three_digits number }
{
    [
        b'0' + (number / 100) as u8,
        b'0' + (number / 10 % 10) as u8,
        b'0' + (number % 10) as u8,
    ]
}
