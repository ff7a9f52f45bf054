// The laws of symmetric placements.
ghost use Rattle.std.specs.Prelude.{◌≡◌, ◌≢◌, ◌↔◌, ◌+◌, ◌*◌, ◌<◌, ◌≤◌, ℕ, List, map, All, IsTrue};
ghost use Rattle.bp_base.specs.declared.path.Pair.{Pair};
ghost use Rattle.bp_base.specs.declared.point.Point.{Point};
ghost use Rattle.bp_base.specs.declared.point.Axis.{Axis};
ghost use Rattle.bp_base.specs.Tree.{IsLeaf};
ghost use Rattle.bp_metric.specs.Distance.{leaf_dist};
ghost use Rattle.bp_arrangement.specs.Facts.{coordinate};
ghost use Rattle.bp_arrangement.specs.Arranged.{IsInOrder};
ghost use Rattle.bp_arrangement.specs.Swaps.{head};
ghost use Rattle.bp_lemmas.specs.Standing.{Lemma};
ghost use Rattle.bp_lemmas.specs.Systems.{IsMet, Meets};
ghost use Rattle.bp_lemmas.specs.Trees.{coordinates};
ghost use Rattle.bp_mirror.specs.declared.kind.MirrorKind.{MirrorKind};
ghost use Rattle.bp_mirror.specs.Mirrored.{Mirrored, NoneBelowMirrored, units};
ghost use Rattle.bp_mirror.specs.Proves.{ProvesMirrored};
ghost use Rattle.bp_mirror.specs.Swaps.{CanArrangeMirrored, IsMirrorSwap};
ghost use Rattle.bp_mirror.specs.Systems.{mirror_system};

use bp_metric::Metric;

/// Of the coordinates of a symmetric placement an order of the system of the mirror is met exactly where the first leaf lies before the
/// second by their distance, and a coordinate that bounds can speak of is that of the leaf.
pub fn law_of_mirror_readings(metric: &Metric)
    ensures orders { (kind : MirrorKind) (mirror : List Pair) (q s : ℕ) (P : List Point) (bound : ℕ) (heads : List Pair) (axis : Axis) (i j : ℕ) → 1 ≤ q → Mirrored metric.now.tree kind mirror (q * units kind) s P → IsLeaf metric.now.tree i → IsLeaf metric.now.tree j → i ≢ j → IsMet q s (coordinates P) ((mirror_system metric.now.tree kind mirror bound heads).order axis i j) ↔ (coordinate P axis i + q * (units kind * leaf_dist metric.now.tree i j) ≤ coordinate P axis j) }
    ensures coordinates { (kind : MirrorKind) (mirror : List Pair) (q s : ℕ) (P : List Point) (bound : ℕ) (heads : List Pair) (axis : Axis) (i : ℕ) → 1 ≤ q → Mirrored metric.now.tree kind mirror (q * units kind) s P → IsTrue ((mirror_system metric.now.tree kind mirror bound heads).has_coordinate axis i) → coordinates P ((mirror_system metric.now.tree kind mirror bound heads).coordinate axis i) ≡ coordinate P axis i }
{
    let _leaves = metric.leaves();
}

/// The coordinates of a symmetric placement of a side below the bound, in which the heads of swaps are in order, meet the system of
/// the mirror.
pub fn law_of_mirror_systems(metric: &Metric)
    ensures meets { (kind : MirrorKind) (mirror : List Pair) (q s bound : ℕ) (swaps : List (List Pair)) (P : List Point) → 1 ≤ q → All (IsMirrorSwap metric.now.tree mirror) swaps → s < q * bound → Mirrored metric.now.tree kind mirror (q * units kind) s P → All (IsInOrder P) swaps → Meets (mirror_system metric.now.tree kind mirror bound (map head swaps)) q s (coordinates P) }
{
    let _leaves = metric.leaves();
}

/// The law of arrangement for swaps that keep the mirror: for each symmetric placement, on each grid, there is one at the same side
/// in which the heads of the swaps are in order.
pub fn law_of_mirror_arrangement(metric: &Metric)
    ensures arranged { CanArrangeMirrored metric.now.tree }
{
    let _leaves = metric.leaves();
}

/// The law of lemmas: where a list of lemmas proves a bound, no side below it holds a symmetric placement, on any finer grid either.
pub fn law_of_mirror_lemmas(metric: &Metric)
    ensures none { (kind : MirrorKind) (mirror : List Pair) (bound : ℕ) (swaps : List (List Pair)) (lemmas : List Lemma) → ProvesMirrored metric.now.tree kind mirror bound swaps lemmas → NoneBelowMirrored metric.now.tree kind mirror bound }
{
    let _leaves = metric.leaves();
}
