ghost use Rattle.std.specs.Prelude.{◌≡◌, ◌+◌, IfErr};
ghost use Rattle.compile_defines.specs.Budget.{HasTaken, joint_elements};
ghost use Rattle.compile_defines.specs.declared.budget.MakeRefusal.TheVariants as refusal;

use odd_text::NoMemory;
use std::alloc::AllocError;

/// How many elements the text of a schema may still have.
#[derive(Debug, Drop)]
pub struct Budget {
    pub left: u64,
}

/// Why a part of a schema is not made.
#[derive(Debug, Drop, PartialEq, Eq)]
pub enum MakeRefusal {
    /// The text of the schema has more elements than the budget.
    TooLarge,
    NoMemory,
}

impl From<NoMemory> for MakeRefusal {
    ghost use Rattle.compile_defines.specs.declared.budget.MakeRefusal.TheVariants as refusal;

    ghost from_gives = { λ _ e. e ≡ refusal.NoMemory };

    fn from(_error: NoMemory) -> MakeRefusal {
        MakeRefusal::NoMemory
    }
}

impl From<AllocError> for MakeRefusal {
    ghost use Rattle.compile_defines.specs.declared.budget.MakeRefusal.TheVariants as refusal;

    ghost from_gives = { λ _ e. e ≡ refusal.NoMemory };

    fn from(_error: AllocError) -> MakeRefusal {
        MakeRefusal::NoMemory
    }
}

impl Budget {
    /// Takes so many elements. The only error is TooLarge, where so many are not left.
    pub fn take(&mut self, elements: u64) -> Result<(), MakeRefusal>
        ensures taken { HasTaken elements self.old self.new result }
        ensures err { IfErr result (λ e. e ≡ refusal.TooLarge) }
    {
        if self.left < elements {
            return Err(MakeRefusal::TooLarge);
        }
        self.left -= elements;
        Ok(())
    }

    /// Takes an element and so many in it. The only error is TooLarge, where so many are not left.
    pub fn take_over(&mut self, inside: u64) -> Result<(), MakeRefusal>
        ensures taken { HasTaken (inside + 1) self.old self.new result }
        ensures err { IfErr result (λ e. e ≡ refusal.TooLarge) }
    {
        self.take(1)?;
        self.take(inside)
    }

    /// Takes the element of a group or a choice of so many parts, whose own elements are taken already: none for a single
    /// part, which stands alone, and one otherwise. The only error is TooLarge, where none is left.
    pub fn take_joint(&mut self, parts: usize) -> Result<(), MakeRefusal>
        ensures taken { HasTaken (joint_elements parts) self.old self.new result }
        ensures err { IfErr result (λ e. e ≡ refusal.TooLarge) }
    {
        if parts == 1 {
            return Ok(());
        }
        self.take(1)
    }
}
