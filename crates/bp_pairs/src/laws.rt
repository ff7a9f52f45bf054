// Laws of pairs and of placements.
ghost use Rattle.std.specs.Prelude.{◌≡◌, ◌<◌, ◌≤◌, ◌↔◌, ℕ, List};
ghost use Rattle.bp_base.specs.declared.path.Pair.{Pair as AnyPair};
ghost use Rattle.bp_base.specs.declared.point.Point.{Point as AnyPoint};
ghost use Rattle.bp_base.specs.Path.{IsPairOf};
ghost use Rattle.bp_metric.specs.Next.{IsEarlier};
ghost use Rattle.bp_metric.specs.Steady.{IsSteady};
ghost use Rattle.bp_metric.specs.Valid.{Valid};
ghost use Rattle.bp_pairs.specs.Numbers.{pair_count, pair_number};

use bp_metric::Metric;

/// Numbers of pairs are below the number of pairs, and of two pairs the one that stands earlier in the order has the lesser
/// number, and no other.
pub fn numbers_rise()
    ensures below { (n : ℕ) (p : AnyPair) → IsPairOf n p → pair_number n p < pair_count n }
    ensures rise { (n : ℕ) (p r : AnyPair) → IsPairOf n p → IsPairOf n r → (IsEarlier p r ↔ (pair_number n p < pair_number n r)) }
{}

/// Where a side has a valid placement it has a steady one, whose list of coordinates is least.
pub fn has_steady(metric: &Metric)
    ensures { (s : ℕ) (P : List AnyPoint) → Valid metric.now.tree metric.now.sheet 1 s P → (Q : List AnyPoint) × IsSteady metric.now.tree metric.now.sheet s Q }
{}

/// A side has only one steady placement.
pub fn one_steady(metric: &Metric)
    ensures { (s : ℕ) (P Q : List AnyPoint) → IsSteady metric.now.tree metric.now.sheet s P → IsSteady metric.now.tree metric.now.sheet s Q → P ≡ Q }
{}
