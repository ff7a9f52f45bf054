// A table of cells, one for each pair of neighbouring cuts of both axes.
ghost use Rattle.std.specs.Prelude.{◌≡◌, ◌+◌, ◌-◌, ◌*◌, ◌^◌, ◌<◌, ◌≤◌, ◌↔◌, length, IsTrue, IfOk, OnOk};
ghost use Rattle.bp_base.specs.declared.point.Axis.TheVariants.{X, Y};
ghost use Rattle.bp_base.specs.Tree.{IsEdge};
ghost use Rattle.bp_regions.specs.Runs.{Below, Beside};
ghost use Rattle.bp_regions.specs.Cuts.{AreCutsOf};
ghost use Rattle.bp_contour.specs.Table.{AddsRow, Holds, IsTable};
ghost use Rattle.bp_contour.specs.Ways.{Arrives, Begins, BeginsNone, CanStep, GoesBy, Leaves, RunBy, step_on};

use crate::way::Way;
use bp_base::{NoMemory, Point};
use bp_regions::Regions;
use std::alloc::Global;
use std::marker::Model;

/// Which cells between neighbouring cuts an edge reaches. Cells are named by column and row, both from 0 on.
#[derive(Drop)]
pub struct Cells {
    width: u64,
    height: u64,
    // row by row
    bits: Vec<bool>,
}

impl Model for Cells {
    ghost use Rattle.bp_contour.specs.Table.{TableValue, IsWhole};

    ghost Value = { TableValue };

    ghost view = { λ c. record { width = c.width; height = c.height; bits = c.bits.items } };

    ghost invariant = { λ c. IsWhole (record { width = c.width; height = c.height; bits = c.bits.items }) };
}

impl Cells {
    /// The table of Reach of the edge. NoMemory where memory runs out.
    pub fn of(
        alloc: Global,
        regions: &Regions,
        edge: u64,
        columns: &[u64],
        rows: &[u64],
    ) -> Result<Cells, NoMemory>
        requires edge { IsEdge regions.now.tree edge }
        requires columns { AreCutsOf regions.now X columns.now }
        requires rows { AreCutsOf regions.now Y rows.now }
        ensures { IfOk result (λ c. IsTable regions.now edge columns.now rows.now c) }
    {
        let height = rows.len().saturating_sub(1);
        let mut bits = Vec::new(alloc);
        for row in 0..height {
            add_row(&mut bits, regions, edge, columns, rows[row])?;
        }
        Ok(Cells {
            width: columns.len().saturating_sub(1) as u64,
            height: height as u64,
            bits,
        })
    }

    /// The number of columns.
    pub fn width(&self) -> u64
        ensures value { result ≡ self.now.width }
        ensures small { result + 1 < 2 ^ 64 }
    {
        self.width
    }

    /// The number of rows.
    pub fn height(&self) -> u64
        ensures value { result ≡ self.now.height }
        ensures small { result + 1 < 2 ^ 64 }
    {
        self.height
    }

    /// The number of cells.
    pub fn count(&self) -> u64
        ensures { result ≡ self.now.width * self.now.height }
    {
        self.bits.len() as u64
    }

    /// The place of a cell, counted from 0 row by row.
    pub fn place(&self, x: u64, y: u64) -> usize
        requires { (x < self.now.width) × (y < self.now.height) }
        ensures value { result ≡ y * self.now.width + x }
        ensures within { result < self.now.width * self.now.height }
    {
        let _cells = self.bits.len();
        (y * self.width + x) as usize
    }

    /// Whether the edge reaches the cells of this column and row; outside the table it reaches none.
    pub fn holds(&self, x: u64, y: u64) -> bool
        ensures { IsTrue result ↔ Holds self.now x y }
    {
        if x < self.width && y < self.height {
            self.bits[(y * self.width + x) as usize]
        } else {
            false
        }
    }

    fn below(&self, x: u64, y: u64) -> bool
        ensures { IsTrue result ↔ Below (Holds self.now) x y }
    {
        y > 0 && self.holds(x, y - 1)
    }

    fn beside(&self, x: u64, y: u64) -> bool
        ensures { IsTrue result ↔ Beside (Holds self.now) x y }
    {
        x > 0 && self.holds(x - 1, y)
    }

    // Whether the table holds the cell on the left of the one below.
    fn across(&self, x: u64, y: u64) -> bool
        ensures { IsTrue result ↔ ((1 ≤ x) × Below (Holds self.now) (x - 1) y) }
    {
        x > 0 && self.below(x - 1, y)
    }

    // Whether the four cells round the point are alike: then no run begins there. Most points of a table are so.
    pub(crate) fn is_plain(&self, at: Point) -> bool
        ensures { IsTrue result → BeginsNone (Holds self.now) at }
    {
        let here = self.holds(at.x, at.y);
        let beside = self.beside(at.x, at.y);
        let below = self.below(at.x, at.y);
        let across = self.across(at.x, at.y);
        are_alike(here, beside, below, across)
    }

    // Whether a unit segment of the boundary goes this way between (x,y) and the next grid point to the right, for North and South
    // above it.
    fn goes(&self, way: Way, x: u64, y: u64) -> bool
        ensures { IsTrue result ↔ GoesBy (Holds self.now) way x y }
    {
        match way {
            Way::East => self.holds(x, y) && !self.below(x, y),
            Way::North => self.beside(x, y) && !self.holds(x, y),
            Way::West => self.below(x, y) && !self.holds(x, y),
            Way::South => self.holds(x, y) && !self.beside(x, y),
        }
    }

    // Whether a unit segment that goes this way begins at the point.
    fn leaves(&self, way: Way, at: Point) -> bool
        ensures { IsTrue result ↔ Leaves (Holds self.now) way at }
    {
        match way {
            Way::East | Way::North => self.goes(way, at.x, at.y),
            Way::West => at.x > 0 && self.goes(way, at.x - 1, at.y),
            Way::South => at.y > 0 && self.goes(way, at.x, at.y - 1),
        }
    }

    // Whether a unit segment that goes this way ends at the point.
    fn arrives(&self, way: Way, at: Point) -> bool
        ensures { IsTrue result ↔ Arrives (Holds self.now) way at }
    {
        match way {
            Way::East => at.x > 0 && self.goes(way, at.x - 1, at.y),
            Way::North => at.y > 0 && self.goes(way, at.x, at.y - 1),
            Way::West | Way::South => self.goes(way, at.x, at.y),
        }
    }

    // Whether a run that goes this way begins at the point.
    pub(crate) fn begins(&self, way: Way, at: Point) -> bool
        ensures { IsTrue result ↔ Begins (Holds self.now) way at }
    {
        self.leaves(way, at) && !self.arrives(way, at)
    }

    // The last point of the run that begins here.
    pub(crate) fn end(&self, way: Way, at: Point) -> Point
        requires { Begins (Holds self.now) way at }
        ensures { RunBy (Holds self.now) way at result }
    {
        let _cells = self.bits.len();
        let mut end = at;
        while self.leaves(way, end) {
            end = step(way, end);
        }
        end
    }
}

fn are_alike(here: bool, beside: bool, below: bool, across: bool) -> bool
    ensures { IsTrue result → (here ≡ beside) × (here ≡ below) × (here ≡ across) }
{
    here == beside && here == below && here == across
}

// The next grid point this way.
fn step(way: Way, at: Point) -> Point
    requires { CanStep way at }
    ensures { result ≡ step_on way at }
{
    let Point { x, y } = at;
    match way {
        Way::East => Point { x: x + 1, y },
        Way::North => Point { x, y: y + 1 },
        Way::West => Point { x: x - 1, y },
        Way::South => Point { x, y: y - 1 },
    }
}

// Adds the row of cells whose lower cut is y.
fn add_row(
    bits: &mut Vec<bool>,
    regions: &Regions,
    edge: u64,
    columns: &[u64],
    y: u64,
) -> Result<(), NoMemory>
    requires edge { IsEdge regions.now.tree edge }
    requires columns { AreCutsOf regions.now X columns.now }
    requires row { y < regions.now.side }
    ensures { OnOk result (AddsRow regions.now edge columns.now y (length columns.now - 1) bits.old.items bits.new.items) }
{
    for column in 0..columns.len().saturating_sub(1) {
        bits.push(regions.reach(edge, columns[column], y))?;
    }
    Ok(())
}
