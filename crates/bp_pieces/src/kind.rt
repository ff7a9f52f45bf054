// Which cells of a table parts are made of, and which of them are near.
ghost use Rattle.std.specs.Prelude.{◌+◌, ◌<◌, ◌^◌, ◌↔◌, IsTrue};
ghost use Rattle.bp_pieces.specs.Labels.{Among, Near};
ghost use Rattle.bp_pieces.specs.Parts.{IsOpen};

use bp_base::Point;
use bp_contour::Cells;

#[derive(Clone, Copy, PartialEq, Eq)]
pub enum Kind {
    Reached,
    Outside,
}

pub fn is_among(cells: &Cells, kind: Kind, x: u64, y: u64) -> bool
    ensures { IsTrue result ↔ Among cells.now kind x y }
{
    match kind {
        Kind::Reached => cells.holds(x, y),
        Kind::Outside => x < cells.width() && y < cells.height() && !cells.holds(x, y),
    }
}

// Whether it is a cell of the outside at the border of the table.
pub fn is_open(cells: &Cells, kind: Kind, x: u64, y: u64) -> bool
    requires { (x < cells.now.width) × (y < cells.now.height) }
    ensures { IsTrue result ↔ IsOpen cells.now kind x y }
{
    let (width, height) = (cells.width(), cells.height());
    match kind {
        Kind::Reached => false,
        Kind::Outside => {
            let at_border = x == 0 || y == 0 || x + 1 == width || y + 1 == height;
            at_border && is_among(cells, kind, x, y)
        }
    }
}

pub fn is_near(kind: Kind, one: Point, other: Point) -> bool
    requires { (one.x + 1 < 2 ^ 64) × (one.y + 1 < 2 ^ 64) × (other.x + 1 < 2 ^ 64) × (other.y + 1 < 2 ^ 64) }
    ensures { IsTrue result ↔ Near kind one.x one.y other.x other.y }
{
    let Point { x, y } = one;
    let Point { x: u, y: v } = other;
    match kind {
        Kind::Reached => {
            x == u && (y + 1 == v || v + 1 == y) || y == v && (x + 1 == u || u + 1 == x)
        }
        Kind::Outside => x <= u + 1 && u <= x + 1 && y <= v + 1 && v <= y + 1,
    }
}
