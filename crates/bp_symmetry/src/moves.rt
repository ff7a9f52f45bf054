// The moves of all points.
ghost use Rattle.std.specs.Prelude.{◌≡◌, ◌≤◌, All};
ghost use Rattle.bp_symmetry.specs.Moves.{exchanged, mirrored_x, mirrored_y};

use bp_base::Point;

// Exchanges x and y.
pub fn exchange(points: &mut [Point])
    ensures { points.new ≡ exchanged points.old }
{
    for point in points.iter_mut() {
        *point = Point {
            x: point.y,
            y: point.x,
        };
    }
}

// Turns over a sheet of this width, left and right exchanged.
pub fn mirror_x(points: &mut [Point], width: u64)
    requires { All (λ p. p.x ≤ width) points.old }
    ensures { points.new ≡ mirrored_x width points.old }
{
    for point in points.iter_mut() {
        *point = Point {
            x: width - point.x,
            y: point.y,
        };
    }
}

// Turns over a sheet of this side, top and bottom exchanged.
pub fn mirror_y(points: &mut [Point], side: u64)
    requires { All (λ p. p.y ≤ side) points.old }
    ensures { points.new ≡ mirrored_y side points.old }
{
    for point in points.iter_mut() {
        *point = Point {
            x: point.x,
            y: side - point.y,
        };
    }
}
