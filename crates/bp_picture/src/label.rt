// Where the dot and the name of a tip stand.
ghost use Rattle.std.specs.Prelude.{◌≡◌, ◌≤◌, ◌*◌};
ghost use Rattle.bp_base.specs.Limits.{most_length, most_name, most_number};
ghost use Rattle.bp_base.specs.Point.{IsSmallPoint};
ghost use Rattle.bp_picture.specs.Labels.{label_of, name_line, name_size};

use bp_base::Point;

/// The dot of a tip and its name, in thousandths of a grid unit, from the left and from the top: the dot's middle and radius, the
/// middle of the name, the line that it stands on, and its size.
#[derive(Clone, Copy, Debug, PartialEq, Eq)]
pub struct Label {
    pub x: u64,
    pub y: u64,
    pub dot: u64,
    pub middle: u64,
    pub line: u64,
    pub size: u64,
}

pub fn label_of(side: u64, length: u64, count: u64, point: Point) -> Label
    requires side { side ≤ most_number }
    requires length { length ≤ most_length }
    requires count { count ≤ most_name }
    requires point { IsSmallPoint point }
    ensures { result ≡ label_of side length count point }
{
    let x = 1000 * point.x;
    let y = 1000 * side.saturating_sub(point.y);
    let from = x.saturating_sub(1000 * length);
    let to = (1000 * side).min(x + 1000 * length);
    let size = name_size(side, length, count, to.saturating_sub(from));
    Label {
        x,
        y,
        dot: (7 * side).min(150 * length),
        middle: (from + to) / 2,
        line: name_line(side, length, size, point),
        size,
    }
}

// The size of a name of so many letters that stands in a place of this width.
fn name_size(side: u64, length: u64, count: u64, width: u64) -> u64
    requires side { side ≤ most_number }
    requires length { length ≤ most_length }
    requires count { count ≤ most_name }
    requires width { width ≤ 1000 * most_number }
    ensures { result ≡ name_size side length count width }
{
    (24 * side)
        .min(500 * length)
        .min(3 * width / (2 * count + 1))
}

// The line of a name of this size: above the dot, or below it where the tip lies in the upper half of the sheet.
fn name_line(side: u64, length: u64, size: u64, point: Point) -> u64
    requires side { side ≤ most_number }
    requires length { length ≤ most_length }
    requires size { size ≤ 24 * most_number }
    requires point { IsSmallPoint point }
    ensures { result ≡ name_line side length size point }
{
    let y = 1000 * side.saturating_sub(point.y);
    let gap = (14 * side).min(300 * length);
    if side < 2 * point.y {
        y + gap + 7 * size / 10
    } else {
        y.saturating_sub(gap)
    }
}
