// The pieces and the holes of an edge.
ghost use Rattle.std.specs.Prelude.{IfOk};
ghost use Rattle.std.specs.List.{sum_by};
ghost use Rattle.bp_base.specs.declared.point.Piece.{Piece as AnyPiece};
ghost use Rattle.bp_base.specs.Tree.{IsEdge};
ghost use Rattle.bp_regions.specs.Cells.{Reach};
ghost use Rattle.bp_pieces.specs.Pieces.{HasCells, IsReport};

use crate::kind::Kind;
use crate::parts::parts_of;
use bp_base::{Axis, NoMemory, Report};
use bp_contour::Cells;
use bp_regions::Regions;
use std::alloc::Global;

/// All pieces and all holes of the edge, each once, with their areas in cells, rising by their places (y, x). NoMemory where memory
/// runs out.
pub fn report(alloc: Global, regions: &Regions, edge: u64) -> Result<Report, NoMemory>
    requires edge { IsEdge regions.now.tree edge }
    ensures report { IfOk result (λ r. IsReport (Reach regions.now.tree regions.now.side regions.now.points edge) regions.now.side r) }
    ensures areas { IfOk result (λ r. HasCells (Reach regions.now.tree regions.now.side regions.now.points edge) regions.now.side (sum_by (λ (p : AnyPiece). p.area) r.pieces)) }
{
    let columns = regions.cuts(Axis::X);
    let rows = regions.cuts(Axis::Y);
    let cells = Cells::of(alloc, regions, edge, columns, rows)?;
    let pieces = parts_of(alloc, &cells, Kind::Reached, columns, rows)?;
    let holes = parts_of(alloc, &cells, Kind::Outside, columns, rows)?;
    Ok(Report { pieces, holes })
}
