ghost use Rattle.std.specs.Prelude.{◌≤◌, ◌<◌, ◌^◌};

/// The most digits that a number has.
pub const MOST_DIGITS: u32 = 4;

/// Digits of a number, of which there are 4 at most.
#[derive(Clone, Copy, Debug, PartialEq, Eq)]
pub struct Digits {
    pub count: u32,
    pub value: u32,
    ghost few: { count ≤ 4 },
    ghost small: { value < 10 ^ count },
}

impl Digits {
    ghost use Rattle.std.specs.Prelude.{◌≡◌, ◌∷◌, ◌++◌, [], ℕ, List, IsTrue, nat_lt};
    ghost use Rattle.std.specs.Char.{is_ascii_digit};
    ghost use Rattle.rng_dialect.specs.Kept.{KeepsDigits};
    ghost use Rattle.rng_dialect.specs.Reading.{may_reach as reaches};

    /// No digit.
    pub const NONE: Digits = Digits { count: 0, value: 0 };

    /// Whether one more may stand.
    pub fn has_room(self) -> bool
        ensures { result ≡ nat_lt self.count 4 }
    {
        self.count < MOST_DIGITS
    }

    /// The digits with one more at their end.
    pub fn with(self, digit: char) -> Digits
        requires digit { IsTrue (is_ascii_digit digit) }
        requires room { self.count < 4 }
        ensures { (digits : List ℕ) → KeepsDigits digits self → KeepsDigits (digits ++ digit ∷ []) result }
    {
        Digits {
            count: self.count + 1,
            value: self.value * 10 + (digit as u32 - '0' as u32),
        }
    }

    /// Whether these digits, or these and more of them, tell the number or a greater one.
    pub fn may_reach(self, least: u32) -> bool
        ensures { (digits : List ℕ) → KeepsDigits digits self → result ≡ reaches least digits }
    {
        least < (self.value + 1) * 10u32.pow(MOST_DIGITS - self.count)
    }
}
