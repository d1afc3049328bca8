use odd_text::NoMemory;

/// Why a name of a datatype and facets make no item.
#[derive(Clone, Copy, Debug, PartialEq, Eq)]
pub enum ItemRefusal {
    /// The least rule that they break: 1, a number is not of its form; 2, an unknown datatype or facet, a facet on a
    /// datatype that does not take it, or a pattern that is none; 4, a facet twice.
    Rule(u8),
    NoMemory,
}

impl From<NoMemory> for ItemRefusal {
    ghost use Rattle.std.specs.Prelude.{◌≡◌};
    ghost use Rattle.rng_values.specs.declared.refusal.ItemRefusal.TheVariants as refusals;

    ghost from_gives = { λ _ e. e ≡ refusals.NoMemory };

    fn from(_: NoMemory) -> ItemRefusal {
        ItemRefusal::NoMemory
    }
}
