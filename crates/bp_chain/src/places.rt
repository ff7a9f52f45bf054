// Whether a step, or a path, places one leaf before another.
ghost use Rattle.std.specs.Prelude.{◌≡◌, ◌↔◌, IsTrue};
ghost use Rattle.bp_metric.specs.Chains.{Places, PlacesBy};

use crate::steps::Steps;
use bp_base::{Axis, Choice, Step};

// Whether some step of the path places leaf a before leaf b on the axis.
pub fn places<P: Steps>(path: &P, axis: Axis, a: u64, b: u64) -> bool
    ensures { IsTrue result ↔ Places (P.steps path.now) axis a b }
{
    for k in 0..path.len() {
        if places_by(axis, a, b, path.at(k)) {
            return true;
        }
    }
    false
}

// Whether the step places leaf a before leaf b on the axis.
fn places_by(axis: Axis, a: u64, b: u64, step: Step) -> bool
    ensures { IsTrue result ↔ PlacesBy axis a b step.pair step.choice }
{
    let forward = a == step.pair.i && b == step.pair.j;
    let backward = a == step.pair.j && b == step.pair.i;
    match (axis, step.choice) {
        (Axis::X, Choice::Left) | (Axis::Y, Choice::Below) => forward,
        (Axis::X, Choice::Right) | (Axis::Y, Choice::Above) => backward,
        _ => false,
    }
}
