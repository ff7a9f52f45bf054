// Directions of a tour along a boundary.
ghost use Rattle.std.specs.Prelude.{◌≡◌};
ghost use Rattle.bp_contour.specs.Ways.{left_of, right_of, number_of};

#[derive(Clone, Copy, Debug, PartialEq, Eq)]
pub enum Way {
    East,
    North,
    West,
    South,
}

pub fn left_of(way: Way) -> Way
    ensures { result ≡ left_of way }
{
    match way {
        Way::East => Way::North,
        Way::North => Way::West,
        Way::West => Way::South,
        Way::South => Way::East,
    }
}

pub fn right_of(way: Way) -> Way
    ensures { result ≡ right_of way }
{
    match way {
        Way::East => Way::South,
        Way::North => Way::East,
        Way::West => Way::North,
        Way::South => Way::West,
    }
}

// The place of a direction among the four.
pub fn number_of(way: Way) -> u64
    ensures { result ≡ number_of way }
{
    match way {
        Way::East => 0,
        Way::North => 1,
        Way::West => 2,
        Way::South => 3,
    }
}
