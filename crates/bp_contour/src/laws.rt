// Laws of runs and contours.
ghost use Rattle.std.specs.Prelude.{◌≡◌, ℕ, List};
ghost use Rattle.bp_base.specs.declared.point.Point.{Point as AnyPoint};
ghost use Rattle.bp_regions.specs.Cells.{Reach};
ghost use Rattle.bp_regions.specs.Contours.{AreContours};
ghost use Rattle.bp_regions.specs.Runs.{IsAfter, IsRun};

use bp_metric::Metric;

/// The law of following runs: each run along the boundary of Reach of an edge has a run after it, only one, and no two runs have
/// the same run after them. So a tour from run to run ends where it began.
pub fn law_of_after(metric: &Metric)
    ensures some { (S : ℕ) (P : List AnyPoint) (e : ℕ) (p q : AnyPoint) → IsRun (Reach metric.now.tree S P e) p q → (r : AnyPoint) × IsAfter (Reach metric.now.tree S P e) p q r }
    ensures one { (S : ℕ) (P : List AnyPoint) (e : ℕ) (p q r s : AnyPoint) → IsRun (Reach metric.now.tree S P e) p q → IsAfter (Reach metric.now.tree S P e) p q r → IsAfter (Reach metric.now.tree S P e) p q s → r ≡ s }
    ensures back { (S : ℕ) (P : List AnyPoint) (e : ℕ) (p q r s : AnyPoint) → IsRun (Reach metric.now.tree S P e) p r → IsRun (Reach metric.now.tree S P e) q r → IsAfter (Reach metric.now.tree S P e) p r s → IsAfter (Reach metric.now.tree S P e) q r s → p ≡ q }
{}

/// An edge's contours are one list: the four parts of their definition leave no choice.
pub fn one_contours(metric: &Metric)
    ensures { (S : ℕ) (P : List AnyPoint) (e : ℕ) (K L : List (List AnyPoint)) → AreContours (Reach metric.now.tree S P e) K → AreContours (Reach metric.now.tree S P e) L → K ≡ L }
{}
