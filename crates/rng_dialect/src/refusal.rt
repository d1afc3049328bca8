use odd_text::NoMemory;

/// Why a text is read as no pattern.
#[derive(Clone, Copy, Debug, PartialEq, Eq, thiserror::Error)]
pub enum PatternRefusal {
    /// The text spells no pattern of the dialect. The place is counted in bytes.
    #[error("no pattern at byte {at}")]
    BadPattern { at: u64 },
    #[error("no memory")]
    NoMemory,
}

impl From<NoMemory> for PatternRefusal {
    ghost use Rattle.std.specs.Prelude.{◌≡◌};
    ghost use Rattle.rng_dialect.specs.declared.refusal.PatternRefusal.TheVariants as refusals;

    ghost from_gives = { λ _ e. e ≡ refusals.NoMemory };

    fn from(_: NoMemory) -> PatternRefusal {
        PatternRefusal::NoMemory
    }
}
