// Laws of regions.
ghost use Rattle.std.specs.Prelude.{◌≡◌, ℕ, List, Option, IsTrue, IsFalse};
ghost use Rattle.bp_base.specs.declared.point.Axis.TheVariants.{X, Y};
ghost use Rattle.bp_base.specs.declared.point.Point.{Point as AnyPoint};
ghost use Rattle.bp_base.specs.declared.point.Sheet.TheVariants.{Square};
ghost use Rattle.bp_base.specs.Tree.{IsEdge};
ghost use Rattle.bp_metric.specs.Distance.{is_below};
ghost use Rattle.bp_metric.specs.Valid.{Valid};
ghost use Rattle.bp_regions.specs.Cells.{Own, Owner, Reach};
ghost use Rattle.bp_regions.specs.Cuts.{AreAlike, AreCuts, AreTogether};

use bp_metric::Metric;

/// The law of regions: for a valid placement on a square, Reach of two edges neither of which is above the other shares no cell.
/// Hence each cell has at most one owner.
pub fn law_of_regions(metric: &Metric)
    ensures disjoint { (S : ℕ) (P : List AnyPoint) → Valid metric.now.tree Square 1 S P → (e f : ℕ) → IsEdge metric.now.tree e → IsEdge metric.now.tree f → IsFalse (is_below metric.now.tree e f) → IsFalse (is_below metric.now.tree f e) → (x y : ℕ) → Reach metric.now.tree S P e x y → Reach metric.now.tree S P f x y → ⊥ }
    ensures owned_once { (S : ℕ) (P : List AnyPoint) → Valid metric.now.tree Square 1 S P → (e f : ℕ) → IsEdge metric.now.tree e → IsEdge metric.now.tree f → (x y : ℕ) → Own metric.now.tree S P e x y → Own metric.now.tree S P f x y → e ≡ f }
    ensures one_owner { (S : ℕ) (P : List AnyPoint) → Valid metric.now.tree Square 1 S P → (x y : ℕ) (o p : Option ℕ) → Owner metric.now.tree S P x y o → Owner metric.now.tree S P x y p → o ≡ p }
{
    let _leaves = metric.leaves();
}

/// Two cells that lie between the same neighbouring cuts on both axes have equal answers of Reach, Own and Owner.
pub fn law_of_cuts(metric: &Metric)
    ensures { (S : ℕ) (P : List AnyPoint) (xs ys : List ℕ) → AreCuts metric.now.tree S P X xs → AreCuts metric.now.tree S P Y ys → (x y v w : ℕ) → AreTogether xs x v → AreTogether ys y w → AreAlike metric.now.tree S P x y v w }
{}
