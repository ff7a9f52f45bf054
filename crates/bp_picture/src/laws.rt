// Laws of pictures.
ghost use Rattle.std.specs.Prelude.{◌≡◌, ◌≢◌, ℕ, List};
ghost use Rattle.bp_base.specs.declared.point.Point.{Point as AnyPoint};
ghost use Rattle.bp_base.specs.Tree.{IsEdge};
ghost use Rattle.bp_picture.specs.Fills.{fill_of};
ghost use Rattle.bp_picture.specs.Pictures.{IsPicture};

use bp_base::Tree;
use bp_contour::one_contours;
use bp_metric::Metric;

/// No two edges of a tree have one fill.
pub fn law_of_fills(tree: &Tree)
    ensures { (e f : ℕ) → IsEdge tree.now e → IsEdge tree.now f → e ≢ f → fill_of tree.now e ≢ fill_of tree.now f }
{
    let _nodes = tree.parents();
}

/// A tree, a side with a bound, and points have one picture.
pub fn one_picture(metric: &Metric)
    ensures { (S bound : ℕ) (P : List AnyPoint) (s t : List ℕ) → IsPicture (record { tree = metric.now.tree; side = S; points = P }) bound s → IsPicture (record { tree = metric.now.tree; side = S; points = P }) bound t → s ≡ t }
{
    one_contours(metric);
}
