// The law of reports.
ghost use Rattle.std.specs.Prelude.{◌≡◌, ℕ, List};
ghost use Rattle.bp_base.specs.declared.point.Point.{Point as AnyPoint};
ghost use Rattle.bp_base.specs.declared.point.Report.{Report as AnyReport};
ghost use Rattle.bp_regions.specs.Cells.{Reach};
ghost use Rattle.bp_pieces.specs.Pieces.{IsReport};

use bp_metric::Metric;

/// An edge has one report: its pieces and holes, their areas and their order leave no choice.
pub fn law_of_report(metric: &Metric)
    ensures { (S : ℕ) (P : List AnyPoint) (e : ℕ) (r q : AnyReport) → IsReport (Reach metric.now.tree S P e) S r → IsReport (Reach metric.now.tree S P e) S q → r ≡ q }
{}
