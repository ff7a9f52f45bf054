// Tours from run to run.
ghost use Rattle.std.specs.Prelude.{◌≡◌, ◌<◌, false, length, map, IfOk};
ghost use Rattle.bp_contour.specs.declared.loops.Loop.{Loop as AnyLoop};
ghost use Rattle.bp_contour.specs.Listed.{AreRuns, Follows};
ghost use Rattle.bp_contour.specs.Table.{Holds, grid_point};
ghost use Rattle.bp_contour.specs.Tours.{AreClosed, AreOnGrid, AreRound, IsRound, mark_at, start_of};

use crate::loops::Loop;
use crate::runs::{Run, after};
use crate::table::Cells;
use bp_base::{NoMemory, Point, Sequence};
use std::alloc::Global;

// The loops that go over each run once. Columns and rows are those of the cuts.
pub fn loops_of(
    alloc: Global,
    cells: &Cells,
    runs: &[Run],
    columns: &[u64],
    rows: &[u64],
) -> Result<Vec<Loop>, NoMemory>
    requires runs { AreRuns (Holds cells.now) runs.now }
    requires grid { AreOnGrid columns.now rows.now runs.now }
    ensures { IfOk result (λ v. AreRound (Follows (Holds cells.now) runs.now) (length runs.now) (start_of columns.now rows.now runs.now) (map (λ (l : AnyLoop). l.points) v.items)) }
{
    let mut taken = vec![in alloc; false; runs.len()]?;
    let mut loops = Vec::new(alloc);
    for start in 0..runs.len() {
        if !taken[start] {
            let points = tour(alloc, cells, runs, columns, rows, &mut taken, start)?;
            loops.push(Loop { points })?;
        }
    }
    Ok(loops)
}

// The loop that begins with the run at this place. Its runs are marked as taken.
fn tour(
    alloc: Global,
    cells: &Cells,
    runs: &[Run],
    columns: &[u64],
    rows: &[u64],
    taken: &mut [bool],
    start: usize,
) -> Result<Sequence<Point>, NoMemory>
    requires runs { AreRuns (Holds cells.now) runs.now }
    requires grid { AreOnGrid columns.now rows.now runs.now }
    requires long { length taken.old ≡ length runs.now }
    requires start { start < length runs.now }
    requires free { mark_at taken.old start ≡ false }
    requires closed { AreClosed (Follows (Holds cells.now) runs.now) taken.old }
    ensures { IfOk result (λ points. IsRound (Follows (Holds cells.now) runs.now) (start_of columns.now rows.now runs.now) start taken.old taken.new points) }
{
    let mut points = Sequence::new(alloc);
    points.push(point_of(columns, rows, runs[start].from))?;
    taken[start] = true;
    let mut place = after(cells, runs, start);
    while place != start {
        points.push(point_of(columns, rows, runs[place].from))?;
        taken[place] = true;
        place = after(cells, runs, place);
    }
    Ok(points)
}

fn point_of(columns: &[u64], rows: &[u64], at: Point) -> Point
    requires column { at.x < length columns.now }
    requires row { at.y < length rows.now }
    ensures { result ≡ grid_point columns.now rows.now at }
{
    Point {
        x: columns[at.x as usize],
        y: rows[at.y as usize],
    }
}
