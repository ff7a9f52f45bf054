// All runs of a table, in the order of their first points by (y, x).
ghost use Rattle.std.specs.Prelude.{◌≡◌, ◌+◌, ◌<◌, ◌↔◌, ℕ, length, IsTrue, IfOk, OnOk};
ghost use Rattle.bp_contour.specs.Listed.{AreRuns, AreRising, AreRunsUpTo, Follows, IsFound, StandsBefore, Turns};
ghost use Rattle.bp_contour.specs.Table.{Holds};
ghost use Rattle.bp_contour.specs.Ways.{Begins, RunBy, number_of};

use crate::table::Cells;
use crate::way::{Way, left_of, number_of, right_of};
use bp_base::{NoMemory, Point};
use std::alloc::Global;

// A run by columns and rows of cuts.
#[derive(Clone, Copy)]
pub struct Run {
    pub way: Way,
    pub from: Point,
    pub to: Point,
}

pub fn runs_of(alloc: Global, cells: &Cells) -> Result<Vec<Run>, NoMemory>
    ensures { IfOk result (λ v. AreRuns (Holds cells.now) v.items) }
{
    let mut runs = Vec::new(alloc);
    for y in 0..cells.height() + 1 {
        add_line(&mut runs, cells, y)?;
    }
    Ok(runs)
}

// Adds the runs that begin on a line.
fn add_line(runs: &mut Vec<Run>, cells: &Cells, y: u64) -> Result<(), NoMemory>
    requires { AreRunsUpTo (Holds cells.now) y 0 0 runs.old.items }
    ensures { OnOk result (AreRunsUpTo (Holds cells.now) (y + 1) 0 0 runs.new.items) }
{
    for x in 0..cells.width() + 1 {
        add_point(runs, cells, Point { x, y })?;
    }
    Ok(())
}

// Adds the runs that begin at a point.
fn add_point(runs: &mut Vec<Run>, cells: &Cells, at: Point) -> Result<(), NoMemory>
    requires { AreRunsUpTo (Holds cells.now) at.y at.x 0 runs.old.items }
    ensures { OnOk result (AreRunsUpTo (Holds cells.now) at.y (at.x + 1) 0 runs.new.items) }
{
    if cells.is_plain(at) {
        return Ok(());
    }
    add_way(runs, cells, at, Way::East)?;
    add_way(runs, cells, at, Way::North)?;
    add_way(runs, cells, at, Way::West)?;
    add_way(runs, cells, at, Way::South)?;
    Ok(())
}

// Adds the run that goes this way from the point, if there is one.
fn add_way(runs: &mut Vec<Run>, cells: &Cells, at: Point, way: Way) -> Result<(), NoMemory>
    requires { AreRunsUpTo (Holds cells.now) at.y at.x (number_of way) runs.old.items }
    ensures { OnOk result (AreRunsUpTo (Holds cells.now) at.y at.x (number_of way + 1) runs.new.items) }
{
    if cells.begins(way, at) {
        let to = cells.end(way, at);
        runs.push(Run { way, from: at, to })?;
    }
    Ok(())
}

// The place of the run after the one at this place.
pub fn after(cells: &Cells, runs: &[Run], place: usize) -> usize
    requires runs { AreRuns (Holds cells.now) runs.now }
    requires place { place < length runs.now }
    ensures { Follows (Holds cells.now) runs.now place result }
{
    let run = runs[place];
    find(runs, run.to, turn(cells, run))
}

// Which way the run after this one goes.
fn turn(cells: &Cells, run: Run) -> Way
    requires { RunBy (Holds cells.now) run.way run.from run.to }
    ensures begins { Begins (Holds cells.now) result run.to }
    ensures turns { Turns (Holds cells.now) run.way run.to result }
{
    let left = left_of(run.way);
    if cells.begins(left, run.to) {
        left
    } else {
        right_of(run.way)
    }
}

// The place of the run that goes this way from the point.
fn find(runs: &[Run], from: Point, way: Way) -> usize
    requires rising { AreRising runs.now }
    requires there { (k : ℕ) × IsFound runs.now k way from }
    ensures { IsFound runs.now result way from }
{
    let mut low = 0;
    let mut high = runs.len();
    while high - low > 1 {
        let middle = low + (high - low) / 2;
        if is_before(from, way, runs[middle]) {
            high = middle;
        } else {
            low = middle;
        }
    }
    low
}

// Whether the place of such a run is before that of the other.
fn is_before(from: Point, way: Way, run: Run) -> bool
    ensures { IsTrue result ↔ StandsBefore from.y from.x (number_of way) run.from.y run.from.x (number_of run.way) }
{
    from.y < run.from.y
        || from.y == run.from.y
            && (from.x < run.from.x || from.x == run.from.x && number_of(way) < number_of(run.way))
}
