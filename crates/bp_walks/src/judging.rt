// Which axis is shown, and what is forced.
ghost use Rattle.std.specs.Prelude.{◌≡◌};
ghost use Rattle.bp_metric.specs.Coordinates.{IsForcedBy};

use bp_base::{Axis, MOST_NUMBER, Sheet};

/// Which axis is shown, and what is forced.
#[derive(Clone, Copy)]
pub struct Judged {
    pub axis: Axis,
    pub forced: u64,
}

/// The axis that is shown and the side that is forced, from the greatest coordinates on x and on y, in grid units.
pub fn judge_greatest(sheet: Sheet, x: u64, y: u64) -> Judged
    ensures { IsForcedBy sheet x y result.axis result.forced }
{
    match sheet {
        Sheet::Square if y <= x => Judged {
            axis: Axis::X,
            forced: x,
        },
        Sheet::Strip { width } if width < x => Judged {
            axis: Axis::X,
            forced: MOST_NUMBER,
        },
        _ => Judged {
            axis: Axis::Y,
            forced: y,
        },
    }
}
