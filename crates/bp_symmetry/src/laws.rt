// Laws of settling, and of refutations, which rest on it.
ghost use Rattle.std.specs.Prelude.{◌≡◌, ℕ, List, [], Some};
ghost use Rattle.bp_base.specs.declared.point.Point.{Point};
ghost use Rattle.bp_base.specs.declared.refutation.Refutation.{Refutation};
ghost use Rattle.bp_metric.specs.Nodes.{weighs};
ghost use Rattle.bp_metric.specs.Refutation.{Fits};
ghost use Rattle.bp_metric.specs.Valid.{NoneBelow, Valid};
ghost use Rattle.bp_symmetry.specs.Settled.{AreMoved, IsSettling};

use bp_metric::Metric;

/// The law of settling: for each valid placement, on each finer grid too, there is one that the moves make of it. It is valid at
/// the same side, and an allowed choice holds for each pair. On the grid itself it is what `settle` leaves.
pub fn law_of_settling(metric: &Metric)
    ensures { (q s : ℕ) (P : List Point) → Valid metric.now.tree metric.now.sheet q s P → (Q : List Point) × IsSettling metric.now.tree metric.now.sheet q s P Q }
{
    let _leaves = metric.leaves();
}

/// The moves make only one placement of a valid one.
pub fn one_settling(metric: &Metric)
    ensures { (q s : ℕ) (P Q R : List Point) → Valid metric.now.tree metric.now.sheet q s P → AreMoved metric.now.tree metric.now.sheet q s P Q → AreMoved metric.now.tree metric.now.sheet q s P R → Q ≡ R }
{
    let _leaves = metric.leaves();
}

/// The law of refutations: where a refutation fits the empty path, no side below what it weighs holds a valid placement, on any
/// finer grid either. On a strip the side is the height.
pub fn law_of_refutations(metric: &Metric)
    ensures { (R : Refutation) (w : ℕ) → Fits metric.now.tree metric.now.sheet R [] → weighs metric.now.tree metric.now.sheet R ≡ Some w → NoneBelow metric.now.tree metric.now.sheet w }
{
    let _leaves = metric.leaves();
}

/// A refutation that fits the empty path has at least one walk that counts, so it weighs something.
pub fn refutation_counts(metric: &Metric)
    ensures { (R : Refutation) → Fits metric.now.tree metric.now.sheet R [] → (w : ℕ) × (weighs metric.now.tree metric.now.sheet R ≡ Some w) }
{
    let _leaves = metric.leaves();
}
