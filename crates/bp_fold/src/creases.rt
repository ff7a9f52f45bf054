ghost use Rattle.std.specs.Prelude.{IfOk};
ghost use Rattle.bp_fold.specs.Drawings.{IsDrawing};

use crate::corners::{corners_of, points_of};
use crate::drawing::Drawing;
use crate::mesh::mesh_of;
use crate::runs::{edges_of, letters_of};
use bp_base::{NoMemory, Sequence};
use bp_regions::Regions;
use std::alloc::Global;

/// The drawing of the regions: the sheet's border and the hinges. It takes a step for each cell between neighbouring cuts, and none for
/// each unit cell.
pub fn draw(alloc: Global, regions: &Regions) -> Result<Drawing, NoMemory>
    ensures { IfOk result (λ d. IsDrawing regions.now d) }
{
    let mesh = mesh_of(alloc, regions)?;
    let corners = corners_of(alloc, &mesh)?;
    let vertices = points_of(alloc, &mesh, &corners)?;
    let edges = edges_of(alloc, &mesh, &corners)?;
    let letters = letters_of(alloc, mesh.side(), &vertices, &edges)?;
    Ok(Drawing {
        vertices: Sequence::from_vec(vertices),
        edges: Sequence::from_vec(edges),
        letters: Sequence::from_vec(letters),
    })
}
