// What single steps and whole paths place before a leaf.
ghost use Rattle.std.specs.Prelude.{◌≡◌, ◌↔◌, ◌≤◌, ◌<◌, ℕ, IsTrue, MatchOption, slice_index};
ghost use Rattle.bp_metric.specs.Chains.{Places, PlacesBy};
ghost use Rattle.bp_walks.specs.Steps.{IsOnlyBefore};

use bp_base::{Axis, Choice, Path, Step};

// The leaf that the step places before this one on the axis.
pub fn before(axis: Axis, step: Step, leaf: u64) -> Option<u64>
    ensures { MatchOption result ((a : ℕ) → PlacesBy axis a leaf step.pair step.choice → ⊥) (λ p. IsOnlyBefore axis leaf step p) }
{
    let forward = step.pair.j == leaf;
    let backward = step.pair.i == leaf;
    match (axis, step.choice) {
        (Axis::X, Choice::Left) | (Axis::Y, Choice::Below) if forward => Some(step.pair.i),
        (Axis::X, Choice::Right) | (Axis::Y, Choice::Above) if backward => Some(step.pair.j),
        _ => None,
    }
}

// Whether some step of the path places leaf a before leaf b on the axis.
pub fn places(path: &Path, axis: Axis, a: u64, b: u64) -> bool
    ensures { IsTrue result ↔ Places path.now axis a b }
{
    for k in 0..path.len() {
        if places_by(axis, path.at(k), a, b) {
            return true;
        }
    }
    false
}

fn places_by(axis: Axis, step: Step, a: u64, b: u64) -> bool
    ensures { IsTrue result ↔ PlacesBy axis a b step.pair step.choice }
{
    match before(axis, step, b) {
        Some(p) => p == a,
        None => false,
    }
}
