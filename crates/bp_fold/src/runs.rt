// The edges: from each vertex to the next one on its right and to the next one above it. Vertices are the crossings of a list.
ghost use Rattle.std.specs.Prelude.{◌≡◌, ◌+◌, ◌<◌, ◌≤◌, ◌↔◌, ◌++◌, ℕ, IsTrue, IfOk, OnOk, length, map, slice_index_or, All, ◌==◌, ◌&&◌, ◌||◌};
ghost use Rattle.std.specs.List.{AllPairs, Contains};
ghost use Rattle.bp_fold.specs.Edges.{IsEdgeOf, RunsRight, RunsUp, letter_of};
ghost use Rattle.bp_fold.specs.Meshes.{FitsRegions, crossing_of};
ghost use Rattle.bp_fold.specs.Numbering.{HasCorners, HasEdgesBefore, Leads, StandsBefore, corner_at, edge_to, vertices_of};
ghost use Rattle.bp_fold.specs.Vertices.{HasUpper, IsPairBefore, IsVertex};

use crate::drawing::{Edge, Letter};
use crate::mesh::{Corner, Mesh};
use bp_base::{NoMemory, Point};
use std::alloc::Global;

// All edges, by rising numbers.
pub fn edges_of(alloc: Global, mesh: &Mesh, corners: &[Corner]) -> Result<Vec<Edge>, NoMemory>
    requires mesh { FitsRegions mesh.now }
    requires corners { HasCorners mesh.now corners.now }
    ensures { IfOk result (λ v. HasEdgesBefore mesh.now corners.now (length corners.now) 0 v.items) }
{
    let mut edges = Vec::new(alloc);
    for from in 0..corners.len() {
        add_edges(&mut edges, mesh, corners, from)?;
    }
    Ok(edges)
}

// Adds the edges whose smaller number this is.
fn add_edges(
    edges: &mut Vec<Edge>,
    mesh: &Mesh,
    corners: &[Corner],
    from: usize,
) -> Result<(), NoMemory>
    requires mesh { FitsRegions mesh.now }
    requires corners { HasCorners mesh.now corners.now }
    requires from { from < length corners.now }
    requires before { HasEdgesBefore mesh.now corners.now from 0 edges.old.items }
    ensures { OnOk result (HasEdgesBefore mesh.now corners.now (from + 1) 0 edges.new.items) }
{
    let right = right_of(mesh, corners, from);
    let upper = above(mesh, corners, from);
    add_edge(edges, from, right)?;
    add_edge(edges, from, upper)
}

fn add_edge(edges: &mut Vec<Edge>, from: usize, to: Option<usize>) -> Result<(), NoMemory>
    ensures { OnOk result (edges.new.items ≡ edges.old.items ++ edge_to from to) }
{
    if let Some(to) = to {
        edges.push(Edge {
            from: from as u64,
            to: to as u64,
        })?;
    }
    Ok(())
}

// The number of the vertex to which a run goes to the right: the next one, since vertices are numbered along their rows.
fn right_of(mesh: &Mesh, corners: &[Corner], from: usize) -> Option<usize>
    requires mesh { FitsRegions mesh.now }
    requires corners { HasCorners mesh.now corners.now }
    requires from { from < length corners.now }
    ensures { Leads (RunsRight mesh.now.regions.now) (vertices_of mesh.now corners.now) from result }
{
    let corner = corners[from];
    if mesh.has_right(corner.column, corner.row) {
        Some(from + 1)
    } else {
        None
    }
}

// The number of the vertex to which a run goes upwards.
fn above(mesh: &Mesh, corners: &[Corner], from: usize) -> Option<usize>
    requires mesh { FitsRegions mesh.now }
    requires corners { HasCorners mesh.now corners.now }
    requires from { from < length corners.now }
    ensures { Leads (RunsUp mesh.now.regions.now) (vertices_of mesh.now corners.now) from result }
{
    let corner = corners[from];
    if mesh.has_upper(corner.column, corner.row) {
        let row = next_row(mesh, corner.column, corner.row);
        Some(number_of(corners, corner.column, row))
    } else {
        None
    }
}

// The row of the first vertex above, to which the column's line is drawn.
fn next_row(mesh: &Mesh, column: usize, row: usize) -> usize
    requires mesh { FitsRegions mesh.now }
    requires column { column < length mesh.now.xs.now }
    requires row { row < length mesh.now.ys.now }
    requires upper { HasUpper mesh.now.regions.now (crossing_of mesh.now column row) }
    ensures after { row < result }
    ensures within { result < length mesh.now.ys.now }
    ensures vertex { IsVertex mesh.now.regions.now (crossing_of mesh.now column result) }
    ensures free { (k : ℕ) → row < k → k < result → ¬ IsVertex mesh.now.regions.now (crossing_of mesh.now column k) }
{
    let mut next = row + 1;
    while !mesh.is_vertex(column, next) {
        next += 1;
    }
    next
}

// The number of the vertex at a crossing.
fn number_of(corners: &[Corner], column: usize, row: usize) -> usize
    requires rising { AllPairs StandsBefore corners.now }
    requires found { Contains corners.now (corner_at column row) }
    ensures within { result < length corners.now }
    ensures here { slice_index_or corners.now result (corner_at column row) ≡ corner_at column row }
{
    let mut low = 0;
    let mut high = corners.len();
    while high - low > 1 {
        let middle = low + (high - low) / 2;
        if is_after(corners[middle], column, row) {
            high = middle;
        } else {
            low = middle;
        }
    }
    low
}

// Whether the corner stands after the crossing.
fn is_after(corner: Corner, column: usize, row: usize) -> bool
    ensures { IsTrue result ↔ IsPairBefore row column corner.row corner.column }
{
    row < corner.row || row == corner.row && column < corner.column
}

// The letter of each edge.
pub fn letters_of(
    alloc: Global,
    side: u64,
    vertices: &[Point],
    edges: &[Edge],
) -> Result<Vec<Letter>, NoMemory>
    requires edges { All (λ e. (e.from < length vertices.now) × (e.to < length vertices.now)) edges.now }
    ensures { IfOk result (λ v. v.items ≡ map (letter_of side vertices.now) edges.now) }
{
    let mut letters = Vec::with_capacity(alloc, edges.len())?;
    for edge in edges {
        letters.push(letter_of(side, vertices, *edge))?;
    }
    Ok(letters)
}

fn letter_of(side: u64, vertices: &[Point], edge: Edge) -> Letter
    requires from { edge.from < length vertices.now }
    requires to { edge.to < length vertices.now }
    ensures { result ≡ letter_of side vertices.now edge }
{
    let from = vertices[edge.from as usize];
    let to = vertices[edge.to as usize];
    if is_on_border(side, from.x, to.x) || is_on_border(side, from.y, to.y) {
        Letter::Boundary
    } else {
        Letter::Unassigned
    }
}

// Whether two points that have these coordinates of an axis lie on one side of the border.
fn is_on_border(side: u64, a: u64, b: u64) -> bool
    ensures { result ≡ ((a == b) && ((a == 0) || (a == side))) }
{
    a == b && (a == 0 || a == side)
}
