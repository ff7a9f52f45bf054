// The parts of a table with their areas in unit cells.
ghost use Rattle.std.specs.Prelude.{◌≡◌, ◌<◌, ◌+◌, ◌*◌, IfOk, OnOk, ◌↔◌, IsTrue};
ghost use Rattle.bp_pieces.specs.Labels.{Among, AreLabels, Near};
ghost use Rattle.bp_pieces.specs.Parts.{AreAreas, AreListed, ArePartsOf, AreWanted, IsFirst, IsGrid};

use crate::kind::{Kind, is_among, is_open};
use crate::labels::{label_of, labels_of};
use bp_base::{NoMemory, Piece, Point, Sequence};
use bp_contour::Cells;
use std::alloc::Global;

// What is known of the labels: which cell has which, and for each its area and whether its part is wanted.
#[derive(Drop)]
struct Found {
    labels: Vec<u64>,
    areas: Vec<u64>,
    wanted: Vec<bool>,
}

pub fn parts_of(
    alloc: Global,
    cells: &Cells,
    kind: Kind,
    columns: &[u64],
    rows: &[u64],
) -> Result<Sequence<Piece>, NoMemory>
    requires grid { IsGrid cells.now columns.now rows.now }
    ensures { IfOk result (λ parts. ArePartsOf cells.now kind columns.now rows.now parts) }
{
    let labels = labels_of(alloc, cells, kind)?;
    let areas = areas_of(alloc, cells, kind, &labels, columns, rows)?;
    let wanted = wanted_of(alloc, cells, kind, &labels)?;
    let found = Found {
        labels,
        areas,
        wanted,
    };
    let mut parts = Sequence::new(alloc);
    for y in 0..cells.height() {
        list_row(&mut parts, &found, cells, kind, columns, rows, y)?;
    }
    Ok(parts)
}

// For each label the number of its unit cells.
fn areas_of(
    alloc: Global,
    cells: &Cells,
    kind: Kind,
    labels: &[u64],
    columns: &[u64],
    rows: &[u64],
) -> Result<Vec<u64>, NoMemory>
    requires grid { IsGrid cells.now columns.now rows.now }
    requires labels { AreLabels (Among cells.now kind) (Near kind) cells.now.width cells.now.height labels.now }
    ensures { IfOk result (λ v. AreAreas cells.now kind columns.now rows.now labels.now cells.now.height v.items) }
{
    let mut areas = Vec::from_elem(alloc, 0, labels.len())?;
    for y in 0..cells.height() {
        measure_row(&mut areas, cells, kind, labels, columns, rows, y);
    }
    Ok(areas)
}

// Adds the unit cells of a row of the table.
fn measure_row(
    areas: &mut [u64],
    cells: &Cells,
    kind: Kind,
    labels: &[u64],
    columns: &[u64],
    rows: &[u64],
    y: u64,
)
    requires grid { IsGrid cells.now columns.now rows.now }
    requires labels { AreLabels (Among cells.now kind) (Near kind) cells.now.width cells.now.height labels.now }
    requires row { y < cells.now.height }
    requires before { AreAreas cells.now kind columns.now rows.now labels.now y areas.old }
    ensures { AreAreas cells.now kind columns.now rows.now labels.now (y + 1) areas.new }
{
    let height = rows[y as usize + 1] - rows[y as usize];
    for x in 0..cells.width() {
        if is_among(cells, kind, x, y) {
            let label = label_of(cells, kind, labels, x, y) as usize;
            areas[label] += height * (columns[x as usize + 1] - columns[x as usize]);
        }
    }
}

// For each label whether its part is wanted: not where a cell of it is open.
fn wanted_of(
    alloc: Global,
    cells: &Cells,
    kind: Kind,
    labels: &[u64],
) -> Result<Vec<bool>, NoMemory>
    requires labels { AreLabels (Among cells.now kind) (Near kind) cells.now.width cells.now.height labels.now }
    ensures { IfOk result (λ v. AreWanted cells.now kind labels.now (cells.now.width * cells.now.height) v.items) }
{
    let mut wanted = Vec::from_elem(alloc, true, labels.len())?;
    for y in 0..cells.height() {
        bar_row(&mut wanted, cells, kind, labels, y);
    }
    Ok(wanted)
}

fn bar_row(wanted: &mut [bool], cells: &Cells, kind: Kind, labels: &[u64], y: u64)
    requires labels { AreLabels (Among cells.now kind) (Near kind) cells.now.width cells.now.height labels.now }
    requires row { y < cells.now.height }
    requires before { AreWanted cells.now kind labels.now (y * cells.now.width) wanted.old }
    ensures { AreWanted cells.now kind labels.now ((y + 1) * cells.now.width) wanted.new }
{
    for x in 0..cells.width() {
        if is_open(cells, kind, x, y) {
            wanted[label_of(cells, kind, labels, x, y) as usize] = false;
        }
    }
}

// Adds the wanted parts whose least cell lies in this row.
fn list_row(
    parts: &mut Sequence<Piece>,
    found: &Found,
    cells: &Cells,
    kind: Kind,
    columns: &[u64],
    rows: &[u64],
    y: u64,
) -> Result<(), NoMemory>
    requires grid { IsGrid cells.now columns.now rows.now }
    requires labels { AreLabels (Among cells.now kind) (Near kind) cells.now.width cells.now.height found.now.labels.items }
    requires areas { AreAreas cells.now kind columns.now rows.now found.now.labels.items cells.now.height found.now.areas.items }
    requires wanted { AreWanted cells.now kind found.now.labels.items (cells.now.width * cells.now.height) found.now.wanted.items }
    requires row { y < cells.now.height }
    requires before { AreListed cells.now kind columns.now rows.now found.now.labels.items found.now.areas.items found.now.wanted.items (y * cells.now.width) parts.old }
    ensures { OnOk result (AreListed cells.now kind columns.now rows.now found.now.labels.items found.now.areas.items found.now.wanted.items ((y + 1) * cells.now.width) parts.new) }
{
    for x in 0..cells.width() {
        if is_first(found, cells, kind, x, y) {
            parts.push(Piece {
                at: Point {
                    x: columns[x as usize],
                    y: rows[y as usize],
                },
                area: found.areas[cells.place(x, y)],
            })?;
        }
    }
    Ok(())
}

// Whether the cell is the least one of a wanted part.
fn is_first(found: &Found, cells: &Cells, kind: Kind, x: u64, y: u64) -> bool
    requires labels { AreLabels (Among cells.now kind) (Near kind) cells.now.width cells.now.height found.now.labels.items }
    requires wanted { AreWanted cells.now kind found.now.labels.items (cells.now.width * cells.now.height) found.now.wanted.items }
    ensures { IsTrue result ↔ IsFirst cells.now kind found.now.labels.items found.now.wanted.items x y }
{
    if !is_among(cells, kind, x, y) {
        return false;
    }
    let place = cells.place(x, y);
    label_of(cells, kind, &found.labels, x, y) == place as u64 && found.wanted[place]
}
