// The law of pairs.
ghost use Rattle.std.specs.Prelude.{◌≡◌, ◌↔◌, ℕ, ◌+◌, ◌*◌, Contains, length};
ghost use Rattle.bp_base.specs.declared.path.Pair.{Pair as AnyPair};
ghost use Rattle.bp_base.specs.Path.{IsPairOf};
ghost use Rattle.bp_tally.specs.Pairs.{pairs_of};

/// The list that a tally goes over has all pairs of n leaves and no others, each once, since it is no longer than that.
pub fn law_of_pairs()
    ensures all { (n : ℕ) (p : AnyPair) → Contains (pairs_of n) p ↔ IsPairOf n p }
    ensures once { (n : ℕ) → n + 2 * length (pairs_of n) ≡ n * n }
{}
