ghost use Rattle.std.specs.Prelude.{map, IfOk};
ghost use Rattle.bp_contour.specs.declared.loops.Loop.{Loop as AnyLoop};
ghost use Rattle.bp_base.specs.Tree.{IsEdge};
ghost use Rattle.bp_regions.specs.Cells.{Reach};
ghost use Rattle.bp_regions.specs.Contours.{AreContours};

use crate::runs::runs_of;
use crate::table::Cells;
use crate::tour::loops_of;
use bp_base::{Axis, NoMemory, Point, Sequence};
use bp_regions::Regions;
use std::alloc::Global;

/// A closed loop along the boundary of a region, as its turning points in the order in which it goes, in grid units.
#[derive(Debug, Drop)]
pub struct Loop {
    pub points: Sequence<Point>,
}

/// The contours of Reach of the edge: loops that go once along each unit segment between a cell that the edge reaches and one that
/// it doesn't, or the outside of the sheet, with the region on the left. Where two loops touch, each turns left. A loop begins at its
/// least point by (y, x), and loops rise by it. The rule is `AreContours` in bp_regions' specs/Contours.antt; by `one_contours` it
/// leaves no choice. NoMemory where memory runs out.
pub fn contours(alloc: Global, regions: &Regions, edge: u64) -> Result<Vec<Loop>, NoMemory>
    requires edge { IsEdge regions.now.tree edge }
    ensures { IfOk result (λ v. AreContours (Reach regions.now.tree regions.now.side regions.now.points edge) (map (λ (l : AnyLoop). l.points) v.items)) }
{
    let columns = regions.cuts(Axis::X);
    let rows = regions.cuts(Axis::Y);
    let cells = Cells::of(alloc, regions, edge, columns, rows)?;
    let runs = runs_of(alloc, &cells)?;
    loops_of(alloc, &cells, &runs, columns, rows)
}
