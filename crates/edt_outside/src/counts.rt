//! Counts of calls that end at their last value.
ghost use Rattle.std.specs.Prelude.{◌≡◌};
ghost use Rattle.edt_outside.specs.Counts.{one_more};

// A count after one more. It stays at its last value.
pub(crate) fn count_up(count: u64) -> u64
    ensures { result ≡ one_more count }
{
    count.saturating_add(1)
}
