ghost use Rattle.std.specs.Prelude.{◌≡◌, ◌≤◌, ◌+◌, ◌*◌, min};

/// The greatest size of a pattern.
pub const MOST_SIZE: u32 = 20_000;

/// How many levels of parentheses may stand in one another.
pub const MOST_LEVELS: u32 = 60;

/// The sum of two sizes, which stands still at one past the greatest.
pub fn sum_of_sizes(one: u32, other: u32) -> u32
    requires one { one ≤ 20001 }
    requires other { other ≤ 20001 }
    ensures { result ≡ min (one + other) 20001 }
{
    (one + other).min(MOST_SIZE + 1)
}

/// A size so many times, which stands still at one past the greatest.
pub fn size_times(size: u32, times: u32) -> u32
    requires size { size ≤ 20001 }
    requires times { times ≤ 10000 }
    ensures { result ≡ min (size * times) 20001 }
{
    (size * times).min(MOST_SIZE + 1)
}
