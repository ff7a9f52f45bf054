// The cut lines of both axes, and the owner of each cell between neighbouring cuts, which is asked once.
ghost use Rattle.std.specs.Prelude.{◌≡◌, ◌⊎◌, ◌+◌, ◌-◌, ◌<◌, ◌↔◌, ℕ, IsTrue, IfOk, length, slice_index};
ghost use Rattle.bp_base.specs.declared.point.Axis.TheVariants.{X, Y};
ghost use Rattle.bp_regions.specs.Regions.{AreRegions};
ghost use Rattle.bp_regions.specs.Cuts.{AreCutsOf};
ghost use Rattle.bp_fold.specs.Meshes.{AreOwners, FitsRegions, IsOwner, crossing_of};
ghost use Rattle.bp_fold.specs.Segments.{IsDrawn};
ghost use Rattle.bp_fold.specs.Vertices.{HasLeft, HasLower, HasRight, HasUpper, IsVertex, is_bent};

use bp_base::{Axis, NoMemory};
use bp_regions::Regions;
use std::alloc::Global;

#[derive(Drop)]
pub struct Mesh<'a> {
    pub regions: &'a Regions,
    pub xs: &'a [u64],
    pub ys: &'a [u64],
    pub owners: Vec<Option<u64>>,
}

// A crossing of two cut lines.
#[derive(Clone, Copy, PartialEq, Eq)]
pub struct Corner {
    pub column: usize,
    pub row: usize,
}

pub fn mesh_of(alloc: Global, regions: &Regions) -> Result<Mesh<'_>, NoMemory>
    ensures regions { IfOk result (λ m. m.regions.now ≡ regions.now) }
    ensures mesh { IfOk result (λ m. FitsRegions m) }
{
    let xs = regions.cuts(Axis::X);
    let ys = regions.cuts(Axis::Y);
    let owners = owners_of(alloc, regions, xs, ys)?;
    Ok(Mesh {
        regions,
        xs,
        ys,
        owners,
    })
}

// The owners of the cells, row by row.
fn owners_of(
    alloc: Global,
    regions: &Regions,
    xs: &[u64],
    ys: &[u64],
) -> Result<Vec<Option<u64>>, NoMemory>
    requires regions { AreRegions regions.now }
    requires columns { AreCutsOf regions.now X xs.now }
    requires rows { AreCutsOf regions.now Y ys.now }
    ensures { IfOk result (λ v. AreOwners regions.now xs.now ys.now v.items) }
{
    let columns = xs.len().saturating_sub(1);
    let count = columns * ys.len().saturating_sub(1);
    let mut owners = Vec::with_capacity(alloc, count)?;
    for k in 0..count {
        owners.push(regions.owner(xs[k % columns], ys[k / columns]))?;
    }
    Ok(owners)
}

impl Mesh<'_> {
    // The sheet's side, where the last line lies.
    pub fn side(&self) -> u64
        requires mesh { FitsRegions self.now }
        ensures { result ≡ self.now.regions.now.side }
    {
        match self.ys.last() {
            Some(last) => *last,
            None => 0,
        }
    }

    // Whether the crossing is a vertex.
    pub fn is_vertex(&self, column: usize, row: usize) -> bool
        requires mesh { FitsRegions self.now }
        requires column { column < length self.now.xs.now }
        requires row { row < length self.now.ys.now }
        ensures { IsTrue result ↔ IsVertex self.now.regions.now (crossing_of self.now column row) }
    {
        let left = self.has_left(column, row);
        let right = self.has_right(column, row);
        let lower = self.has_lower(column, row);
        let upper = self.has_upper(column, row);
        is_corner(left, right, lower, upper)
    }

    fn has_left(&self, column: usize, row: usize) -> bool
        requires mesh { FitsRegions self.now }
        requires column { column < length self.now.xs.now }
        requires row { row < length self.now.ys.now }
        ensures { IsTrue result ↔ HasLeft self.now.regions.now (crossing_of self.now column row) }
    {
        if column == 0 {
            return false;
        }
        self.level(column - 1, row)
    }

    pub fn has_right(&self, column: usize, row: usize) -> bool
        requires mesh { FitsRegions self.now }
        requires column { column < length self.now.xs.now }
        requires row { row < length self.now.ys.now }
        ensures { IsTrue result ↔ HasRight self.now.regions.now (crossing_of self.now column row) }
    {
        if column + 1 == self.xs.len() {
            return false;
        }
        self.level(column, row)
    }

    fn has_lower(&self, column: usize, row: usize) -> bool
        requires mesh { FitsRegions self.now }
        requires column { column < length self.now.xs.now }
        requires row { row < length self.now.ys.now }
        ensures { IsTrue result ↔ HasLower self.now.regions.now (crossing_of self.now column row) }
    {
        if row == 0 {
            return false;
        }
        self.upright(column, row - 1)
    }

    pub fn has_upper(&self, column: usize, row: usize) -> bool
        requires mesh { FitsRegions self.now }
        requires column { column < length self.now.xs.now }
        requires row { row < length self.now.ys.now }
        ensures { IsTrue result ↔ HasUpper self.now.regions.now (crossing_of self.now column row) }
    {
        if row + 1 == self.ys.len() {
            return false;
        }
        self.upright(column, row)
    }

    // Whether the row's line is drawn from this column's line to the next.
    fn level(&self, column: usize, row: usize) -> bool
        requires mesh { FitsRegions self.now }
        requires column { column + 1 < length self.now.xs.now }
        requires row { row < length self.now.ys.now }
        ensures { IsTrue result ↔ IsDrawn self.now.regions.now X (slice_index self.now.xs.now column) (slice_index self.now.ys.now row) }
    {
        if is_outer(row, self.ys.len()) {
            return true;
        }
        self.owner(column, row - 1) != self.owner(column, row)
    }

    // Whether the column's line is drawn from this row's line to the next.
    fn upright(&self, column: usize, row: usize) -> bool
        requires mesh { FitsRegions self.now }
        requires column { column < length self.now.xs.now }
        requires row { row + 1 < length self.now.ys.now }
        ensures { IsTrue result ↔ IsDrawn self.now.regions.now Y (slice_index self.now.xs.now column) (slice_index self.now.ys.now row) }
    {
        if is_outer(column, self.xs.len()) {
            return true;
        }
        self.owner(column - 1, row) != self.owner(column, row)
    }

    // The owner of the cell.
    fn owner(&self, column: usize, row: usize) -> Option<u64>
        requires mesh { FitsRegions self.now }
        requires column { column + 1 < length self.now.xs.now }
        requires row { row + 1 < length self.now.ys.now }
        ensures { IsOwner self.now.regions.now (slice_index self.now.xs.now column) (slice_index self.now.ys.now row) result }
    {
        self.owners[row * (self.xs.len() - 1) + column]
    }
}

// Whether the line of this number is the first or the last one of so many.
fn is_outer(line: usize, count: usize) -> bool
    requires { line < count }
    ensures { IsTrue result ↔ ((line ≡ 0) ⊎ (line + 1 ≡ count)) }
{
    line == 0 || line + 1 == count
}

// Whether segments in these directions are at least one, and neither exactly two level nor exactly two upright ones.
fn is_corner(left: bool, right: bool, lower: bool, upper: bool) -> bool
    ensures { result ≡ is_bent left right lower upper }
{
    left != right || lower != upper || left && lower
}
