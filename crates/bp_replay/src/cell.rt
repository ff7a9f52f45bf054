// Places of coordinates, and the cells of orders.
ghost use Rattle.std.specs.Prelude.{◌≡◌, ◌<◌};
ghost use Rattle.bp_lemmas.specs.Trees.{axis_of, leaf_of, number};
ghost use Rattle.bp_replay.specs.Cells.{cell_at, name_number, names, places, rows};

use bp_base::Axis;

// A row of a table, and a bit in it.
#[derive(Clone, Copy)]
pub struct Cell {
    pub row: usize,
    pub column: u64,
}

#[inline]
#[tactic(auto, unfolding(bp_lemmas::specs::Trees::number))]
pub fn place(axis: Axis, leaf: u64) -> usize
    requires { leaf < rows }
    ensures number { result ≡ number axis leaf }
    ensures within { result < places }
{
    match axis {
        Axis::X => 2 * leaf as usize,
        Axis::Y => 2 * leaf as usize + 1,
    }
}

// The axis of a coordinate at a place.
#[inline]
#[tactic(auto, unfolding(bp_lemmas::specs::Trees::axis_of))]
pub fn axis_at(place: usize) -> Axis
    ensures { result ≡ axis_of place }
{
    if place % 2 == 0 { Axis::X } else { Axis::Y }
}

// and its leaf
#[inline]
#[tactic(auto, unfolding(bp_lemmas::specs::Trees::leaf_of))]
pub fn leaf_at(place: usize) -> u64
    requires { place < places }
    ensures value { result ≡ leaf_of place }
    ensures within { result < rows }
{
    (place / 2) as u64
}

// The number of a name.
#[inline]
pub fn name(axis: Axis, first: u64, second: u64) -> usize
    requires first { first < rows }
    requires second { second < rows }
    ensures number { result ≡ name_number axis first second }
    ensures within { result < names }
{
    place(axis, first) * 33 + second as usize
}

#[inline]
pub fn cell_of(name: usize) -> Cell
    ensures { result ≡ cell_at name }
{
    Cell {
        row: name / 33,
        column: (name % 33) as u64,
    }
}
