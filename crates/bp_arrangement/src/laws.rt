// The law of arrangement, and laws of facts.
ghost use Rattle.std.specs.Prelude.{◌≡◌, ◌⊎◌, ℕ, ◌+◌, ◌*◌, ◌<◌, ◌≤◌, List};
ghost use Rattle.bp_base.specs.declared.point.Point.{Point};
ghost use Rattle.bp_base.specs.Tree.{TreeValue};
ghost use Rattle.bp_arrangement.specs.declared.fact.Fact.{Fact as AnyFact};
ghost use Rattle.bp_arrangement.specs.Arranged.{CanArrange};
ghost use Rattle.bp_arrangement.specs.Facts.{Holds, denial, mark};

use bp_metric::Metric;

/// The law of arrangement: where all swaps are admissible, there is for each valid placement, on each finer grid too, an arranged
/// one that is valid at the same side.
pub fn law_of_arrangement(metric: &Metric)
    ensures arranged { CanArrange metric.now.tree metric.now.sheet }
{
    let _leaves = metric.leaves();
}

/// The denial of a denial is the fact, and of each placement exactly one of a fact and its denial holds.
pub fn law_of_denials()
    ensures twice { (f : AnyFact) → denial (denial f) ≡ f }
    ensures either { (T : TreeValue) (q : ℕ) (P : List Point) (f : AnyFact) → Holds T q P f ⊎ Holds T q P (denial f) }
    ensures not_both { (T : TreeValue) (q : ℕ) (P : List Point) (f : AnyFact) → Holds T q P f → Holds T q P (denial f) → ⊥ }
{}

/// Where the bounds of codes lie: the code 2K at K grid units and the code 2K + 1 one step of the finer grid behind it; a greater
/// code no nearer, and farther where the grid is at least twice as fine; a code greater by 2d lies d grid units farther.
pub fn law_of_codes()
    ensures whole { (q K : ℕ) → mark q (2 * K) ≡ q * K }
    ensures behind { (q K : ℕ) → mark q (2 * K + 1) ≡ q * K + 1 }
    ensures rise { (q a b : ℕ) → 1 ≤ q → a ≤ b → mark q a ≤ mark q b }
    ensures apart { (q a b : ℕ) → 2 ≤ q → a < b → mark q a < mark q b }
    ensures shifted { (q a d : ℕ) → mark q (a + 2 * d) ≡ mark q a + q * d }
{}
