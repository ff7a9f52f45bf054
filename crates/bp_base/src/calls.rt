ghost use Rattle.std.specs.Prelude.{◌≡◌, ◌↔◌, IsTrue};
ghost use Rattle.std.specs.List.{Contains};
ghost use Rattle.bp_base.specs.Causes.{count_after};

// A count of calls or faults after one more; it stands still at its type's end.
pub(crate) fn count_after(count: u64) -> u64
    ensures { result ≡ count_after count }
{
    count.saturating_add(1)
}

// Whether the call of this number is to fail.
pub(crate) fn is_listed(fails: &[u64], call: u64) -> bool
    ensures { IsTrue result ↔ Contains fails.now call }
{
    fails.contains(&call)
}
