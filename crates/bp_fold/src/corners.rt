// The vertices, as crossings of cut lines and as points. A grid point that is no crossing is no vertex.
ghost use Rattle.std.specs.Prelude.{◌≡◌, ◌+◌, ◌<◌, All, IfOk, OnOk, length};
ghost use Rattle.bp_fold.specs.Meshes.{FitsRegions};
ghost use Rattle.bp_fold.specs.Numbering.{HasCorners, HasCornersBefore, vertices_of};

use crate::mesh::{Corner, Mesh};
use bp_base::{NoMemory, Point};
use std::alloc::Global;

// The crossings that are vertices, by rising row and column.
pub fn corners_of(alloc: Global, mesh: &Mesh) -> Result<Vec<Corner>, NoMemory>
    requires mesh { FitsRegions mesh.now }
    ensures { IfOk result (λ v. HasCorners mesh.now v.items) }
{
    let mut corners = Vec::new(alloc);
    for level in 0..mesh.ys.len() {
        add_row(&mut corners, mesh, level)?;
    }
    Ok(corners)
}

fn add_row(corners: &mut Vec<Corner>, mesh: &Mesh, level: usize) -> Result<(), NoMemory>
    requires mesh { FitsRegions mesh.now }
    requires level { level < length mesh.now.ys.now }
    requires before { HasCornersBefore mesh.now level 0 corners.old.items }
    ensures { OnOk result (HasCornersBefore mesh.now (level + 1) 0 corners.new.items) }
{
    for column in 0..mesh.xs.len() {
        add_corner(corners, mesh, column, level)?;
    }
    Ok(())
}

fn add_corner(
    corners: &mut Vec<Corner>,
    mesh: &Mesh,
    column: usize,
    row: usize,
) -> Result<(), NoMemory>
    requires mesh { FitsRegions mesh.now }
    requires column { column < length mesh.now.xs.now }
    requires row { row < length mesh.now.ys.now }
    requires before { HasCornersBefore mesh.now row column corners.old.items }
    ensures { OnOk result (HasCornersBefore mesh.now row (column + 1) corners.new.items) }
{
    if mesh.is_vertex(column, row) {
        corners.push(Corner { column, row })?;
    }
    Ok(())
}

// The points of the crossings.
pub fn points_of(alloc: Global, mesh: &Mesh, corners: &[Corner]) -> Result<Vec<Point>, NoMemory>
    requires corners { All (λ c. (c.column < length mesh.now.xs.now) × (c.row < length mesh.now.ys.now)) corners.now }
    ensures { IfOk result (λ v. v.items ≡ vertices_of mesh.now corners.now) }
{
    let mut points = Vec::with_capacity(alloc, corners.len())?;
    for corner in corners {
        let x = mesh.xs[corner.column];
        let y = mesh.ys[corner.row];
        points.push(Point { x, y })?;
    }
    Ok(points)
}
