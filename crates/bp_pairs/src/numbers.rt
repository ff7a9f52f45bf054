// Numbers of pairs.
ghost use Rattle.std.specs.Prelude.{◌≡◌, ◌<◌, ◌≤◌};
ghost use Rattle.bp_base.specs.declared.path.Pair.{Pair as AnyPair};
ghost use Rattle.bp_base.specs.Limits.{most_leaves};
ghost use Rattle.bp_base.specs.Path.{IsPairOf};
ghost use Rattle.bp_pairs.specs.Numbers.{pair_count, pair_number};

use bp_base::Pair;

/// The number of a pair of n leaves, from 0 on, in the order (1,2), (1,3), up to (n-1,n).
pub fn pair_number(n: u64, pair: Pair) -> u64
    requires n { n ≤ most_leaves }
    requires pair { IsPairOf n pair }
    ensures number { result ≡ pair_number n pair }
    ensures below { result < pair_count n }
{
    (pair.i - 1) * (2 * n - pair.i) / 2 + (pair.j - pair.i - 1)
}

/// The pair of n leaves that has this number.
pub fn pair_at(n: u64, number: u64) -> Pair
    requires n { n ≤ most_leaves }
    requires number { number < pair_count n }
    ensures pair { IsPairOf n result }
    ensures number { pair_number n result ≡ number }
    ensures only { (p : AnyPair) → IsPairOf n p → pair_number n p ≡ number → p ≡ result }
{
    let mut i = 1;
    let mut left = number;
    while left >= n - i {
        left -= n - i;
        i += 1;
    }
    Pair { i, j: i + 1 + left }
}
