// How many rows of boxes a number of points needs.
ghost use Rattle.std.specs.Prelude.{◌≡◌, ◌≤◌};
ghost use Rattle.bp_base.specs.Limits.{most_leaves};
ghost use Rattle.bp_metric.specs.Metric.{IsSheet};
ghost use Rattle.bp_metric.specs.Floor.{room_of, rows_for};

use bp_base::Sheet;

// How many points that are pairwise m apart the rows hold.
fn room(sheet: Sheet, m: u64, rows: u64) -> u64
    requires sheet { IsSheet sheet }
    requires m { 1 ≤ m }
    requires rows { rows ≤ most_leaves }
    ensures { result ≡ room_of sheet m rows }
{
    match sheet {
        Sheet::Square => rows * rows,
        Sheet::Strip { width } => rows * (width / m + 1),
    }
}

// The least number of rows that hold the points.
pub fn rows(sheet: Sheet, m: u64, count: u64) -> u64
    requires sheet { IsSheet sheet }
    requires m { 1 ≤ m }
    requires count { count ≤ most_leaves }
    ensures rows { result ≡ rows_for sheet m count }
    ensures small { result ≤ count }
{
    for rows in 0..count {
        if room(sheet, m, rows) >= count {
            return rows;
        }
    }
    count
}
