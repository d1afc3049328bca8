ghost use Rattle.std.specs.Prelude.{◌≡◌};

use odd_text::{NoMemory, Offence};

/// Why a file declares nothing, or a chain of files gives no library.
#[derive(Debug, Drop, PartialEq, Eq)]
pub enum OddRefusal {
    /// The first offence: of form where a file is read, of any rule where files are merged.
    Offence(Offence),
    NoMemory,
}

impl From<NoMemory> for OddRefusal {
    ghost use Rattle.odd_library.specs.declared.refusal.OddRefusal.TheVariants as refusal;

    ghost from_gives = { λ _ error. error ≡ refusal.NoMemory };

    fn from(_error: NoMemory) -> OddRefusal {
        OddRefusal::NoMemory
    }
}
