// The laws of lemmas.
ghost use Rattle.std.specs.Prelude.{ℕ, ◌*◌, ◌<◌, ◌≤◌, [], List, map, All};
ghost use Rattle.bp_base.specs.declared.path.Pair.{Pair};
ghost use Rattle.bp_base.specs.declared.point.Point.{Point};
ghost use Rattle.bp_metric.specs.Valid.{NoneBelow, Valid};
ghost use Rattle.bp_arrangement.specs.Arranged.{Arranged};
ghost use Rattle.bp_arrangement.specs.Swaps.{IsAdmissible, IsCorner, head};
ghost use Rattle.bp_lemmas.specs.Systems.{Meets, NoneMeets, System};
ghost use Rattle.bp_lemmas.specs.Standing.{EachStands, EndsEmpty, Lemma, facts_of};
ghost use Rattle.bp_lemmas.specs.Trees.{coordinates, tree_system};
ghost use Rattle.bp_lemmas.specs.Proves.{Proves};

use bp_metric::Metric;

/// The law of systems: where each lemma stands on those before it and the last has no facts, nothing meets the system below its
/// bound, on any finer grid either.
pub fn law_of_systems()
    ensures none { (S : System) (lemmas : List Lemma) → EachStands S [] lemmas → EndsEmpty (facts_of lemmas) → NoneMeets S }
{}

/// The coordinates of a valid arranged placement of a side below the bound meet the system of the tree.
pub fn law_of_trees(metric: &Metric)
    ensures meets { (q s bound a b : ℕ) (swaps : List (List Pair)) (P : List Point) → 1 ≤ q → IsCorner metric.now.tree a b → All (IsAdmissible metric.now.tree a b) swaps → s < q * bound → Valid metric.now.tree metric.now.sheet q s P → Arranged metric.now.tree metric.now.sheet q a b swaps P → Meets (tree_system metric.now.tree metric.now.sheet bound a b (map head swaps)) q s (coordinates P) }
{
    let _leaves = metric.leaves();
}

/// The law of lemmas: where a list of lemmas proves a bound, no side below it holds a valid placement, on any finer grid either.
pub fn law_of_lemmas(metric: &Metric)
    ensures none { (bound a b : ℕ) (swaps : List (List Pair)) (lemmas : List Lemma) → Proves metric.now.tree metric.now.sheet bound a b swaps lemmas → NoneBelow metric.now.tree metric.now.sheet bound }
{
    let _leaves = metric.leaves();
}
