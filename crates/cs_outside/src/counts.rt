// Counts that saturate at `u64::MAX`.
ghost use Rattle.std.specs.Prelude.{◌≡◌};
ghost use Rattle.cs_outside.specs.Counts.{next_count};

// Returns the count plus one, saturating.
pub(crate) fn raised(count: u64) -> u64
    ensures { result ≡ next_count count }
{
    count.saturating_add(1)
}
