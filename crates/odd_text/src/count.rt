ghost use Rattle.std.specs.Prelude.{◌≡◌};
ghost use Rattle.odd_text.specs.Count.{next_count};

/// The count after one more. It stands still at 2^64 - 1.
pub fn next_count(count: u64) -> u64
    ensures { result ≡ next_count count }
{
    count.saturating_add(1)
}
