// Sets of numbers below 64, as the bits of a word.
ghost use Rattle.std.specs.Prelude.{◌≡◌, ◌<◌, ◌==◌, ◌||◌, ℕ};
ghost use Rattle.bp_replay.specs.Sets.{has as is_among};

#[inline]
pub fn has(set: u64, number: u64) -> bool
    requires { number < 64 }
    ensures { result ≡ is_among set number }
{
    set & (1 << number) != 0
}

// The set with one number more.
#[inline]
pub fn with(set: u64, number: u64) -> u64
    requires { number < 64 }
    ensures { (k : ℕ) → k < 64 → is_among result k ≡ ((k == number) || is_among set k) }
{
    set | (1 << number)
}
