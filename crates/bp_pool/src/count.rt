//! Counts of tries that gave none.
ghost use Rattle.std.specs.Prelude.{◌≡◌, ◌<◌, length};
ghost use Rattle.bp_pool.specs.Tries.{NoneFell, Rose};

// One more at a place, up to the most.
pub fn count_up(counts: &mut Vec<u64>, at: usize)
    requires { at < length counts.old.items }
    ensures counts { NoneFell counts.old.items counts.new.items × Rose counts.old.items counts.new.items at }
    ensures same { length counts.new.items ≡ length counts.old.items }
{
    counts[at] = counts[at].saturating_add(1);
}
