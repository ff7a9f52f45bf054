// Labels of the cells of a table: cells that chains join have one label, which is the place of the least of them.
ghost use Rattle.std.specs.Prelude.{◌≡◌, ◌≤◌, ◌<◌, ◌+◌, ◌*◌, ℕ, true, false, length, sum, IfOk};
ghost use Rattle.std.specs.List.{range_with_len};
ghost use Rattle.bp_pieces.specs.Labels.{Among, AreLabels, HasLabels, IsFound, IsLowest, Near, label_at};

use crate::kind::{Kind, is_among, is_near};
use bp_base::{NoMemory, Point};
use bp_contour::Cells;
use std::alloc::Global;

pub fn labels_of(alloc: Global, cells: &Cells, kind: Kind) -> Result<Vec<u64>, NoMemory>
    ensures { IfOk result (λ v. AreLabels (Among cells.now kind) (Near kind) cells.now.width cells.now.height v.items) }
{
    let mut labels = places(alloc, cells)?;
    'lowering: while sweep(cells, kind, &mut labels) {}
    Ok(labels)
}

// The label of a cell.
pub fn label_of(cells: &Cells, kind: Kind, labels: &[u64], x: u64, y: u64) -> u64
    requires labels { AreLabels (Among cells.now kind) (Near kind) cells.now.width cells.now.height labels.now }
    requires cell { Among cells.now kind x y }
    ensures value { result ≡ label_at cells.now.width labels.now x y }
    ensures within { result < cells.now.width * cells.now.height }
{
    labels[cells.place(x, y)]
}

// Each cell's own place.
fn places(alloc: Global, cells: &Cells) -> Result<Vec<u64>, NoMemory>
    ensures { IfOk result (λ v. v.items ≡ range_with_len 0 (cells.now.width * cells.now.height)) }
{
    let count = cells.count();
    let mut labels = Vec::new(alloc);
    for place in 0..count {
        labels.push(place)?;
    }
    Ok(labels)
}

// Lowers labels to those of near cells. Answers whether one was lowered.
fn sweep(cells: &Cells, kind: Kind, labels: &mut [u64]) -> bool
    requires { HasLabels (Among cells.now kind) (Near kind) cells.now.width cells.now.height labels.old }
    ensures has { HasLabels (Among cells.now kind) (Near kind) cells.now.width cells.now.height labels.new }
    ensures lowest { result ≡ false → (x y : ℕ) → Among cells.now kind x y → IsLowest (Among cells.now kind) (Near kind) cells.now.width labels.new x y }
    ensures less { result ≡ true → sum labels.new < sum labels.old }
{
    let mut lowered = false;
    for y in 0..cells.height() {
        lowered = sweep_row(cells, kind, labels, y) || lowered;
    }
    lowered
}

fn sweep_row(cells: &Cells, kind: Kind, labels: &mut [u64], y: u64) -> bool
    requires row { y < cells.now.height }
    requires has { HasLabels (Among cells.now kind) (Near kind) cells.now.width cells.now.height labels.old }
    ensures has { HasLabels (Among cells.now kind) (Near kind) cells.now.width cells.now.height labels.new }
    ensures same { result ≡ false → labels.new ≡ labels.old }
    ensures lowest { result ≡ false → (x : ℕ) → Among cells.now kind x y → IsLowest (Among cells.now kind) (Near kind) cells.now.width labels.new x y }
    ensures less { result ≡ true → sum labels.new < sum labels.old }
{
    let mut lowered = false;
    for x in 0..cells.width() {
        lowered = lower(cells, kind, labels, x, y) || lowered;
    }
    lowered
}

// Lowers the label of a cell, and that of the cell at whose place it was.
fn lower(cells: &Cells, kind: Kind, labels: &mut [u64], x: u64, y: u64) -> bool
    requires cell { (x < cells.now.width) × (y < cells.now.height) }
    requires has { HasLabels (Among cells.now kind) (Near kind) cells.now.width cells.now.height labels.old }
    ensures has { HasLabels (Among cells.now kind) (Near kind) cells.now.width cells.now.height labels.new }
    ensures same { result ≡ false → labels.new ≡ labels.old }
    ensures lowest { result ≡ false → Among cells.now kind x y → IsLowest (Among cells.now kind) (Near kind) cells.now.width labels.new x y }
    ensures less { result ≡ true → sum labels.new < sum labels.old }
{
    if !is_among(cells, kind, x, y) {
        return false;
    }
    let place = cells.place(x, y);
    let old = labels[place];
    let near = least_near(cells, kind, labels, x, y);
    let least = labels[near as usize];
    if least >= old {
        return false;
    }
    labels[old as usize] = labels[old as usize].min(least);
    labels[place] = least;
    true
}

// The least label of the cell and of all near ones.
fn least_near(cells: &Cells, kind: Kind, labels: &[u64], x: u64, y: u64) -> u64
    requires long { length labels.now ≡ cells.now.width * cells.now.height }
    requires cell { Among cells.now kind x y }
    requires within { (x < cells.now.width) × (y < cells.now.height) }
    ensures own { result ≤ label_at cells.now.width labels.now x y }
    ensures found { IsFound (Among cells.now kind) (Near kind) cells.now.width labels.now x y result }
    ensures low { (u v : ℕ) → Among cells.now kind u v → Near kind x y u v → result ≤ label_at cells.now.width labels.now u v }
{
    let mut least = labels[cells.place(x, y)];
    for v in y.saturating_sub(1)..cells.height().min(y + 2) {
        least = least_in_row(cells, kind, labels, Point { x, y }, v, least);
    }
    least
}

// The least of a label and of the labels of near cells in a row.
fn least_in_row(cells: &Cells, kind: Kind, labels: &[u64], at: Point, v: u64, start: u64) -> u64
    requires long { length labels.now ≡ cells.now.width * cells.now.height }
    requires cell { Among cells.now kind at.x at.y }
    requires within { (at.x < cells.now.width) × (at.y < cells.now.height) × (v < cells.now.height) }
    requires start { IsFound (Among cells.now kind) (Near kind) cells.now.width labels.now at.x at.y start }
    ensures own { result ≤ start }
    ensures found { IsFound (Among cells.now kind) (Near kind) cells.now.width labels.now at.x at.y result }
    ensures low { (u : ℕ) → Among cells.now kind u v → Near kind at.x at.y u v → result ≤ label_at cells.now.width labels.now u v }
{
    let mut least = start;
    for u in at.x.saturating_sub(1)..cells.width().min(at.x + 2) {
        least = least_with(cells, kind, labels, at, Point { x: u, y: v }, least);
    }
    least
}

// The lesser of a label and of that of a cell, if that is near.
fn least_with(cells: &Cells, kind: Kind, labels: &[u64], at: Point, other: Point, least: u64) -> u64
    requires long { length labels.now ≡ cells.now.width * cells.now.height }
    requires cell { Among cells.now kind at.x at.y }
    requires within { (at.x < cells.now.width) × (at.y < cells.now.height) × (other.x < cells.now.width) × (other.y < cells.now.height) }
    requires least { IsFound (Among cells.now kind) (Near kind) cells.now.width labels.now at.x at.y least }
    ensures own { result ≤ least }
    ensures found { IsFound (Among cells.now kind) (Near kind) cells.now.width labels.now at.x at.y result }
    ensures low { Among cells.now kind other.x other.y → Near kind at.x at.y other.x other.y → result ≤ label_at cells.now.width labels.now other.x other.y }
{
    if !is_near(kind, at, other) || !is_among(cells, kind, other.x, other.y) {
        return least;
    }
    least.min(labels[cells.place(other.x, other.y)])
}
