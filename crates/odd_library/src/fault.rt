ghost use Rattle.std.specs.Prelude.{◌≡◌};
ghost use Rattle.odd_text.specs.declared.offence.Who.TheVariants as the_who;

use odd_text::{Offence, Who};

/// A rule that is broken at a byte. Faults are ordered by place and then by rule.
#[derive(Clone, Copy, Debug, PartialEq, Eq, PartialOrd, Ord)]
pub struct Fault {
    pub at: u64,
    pub rule: u8,
}

impl Fault {
    /// The offence, in the file of a number.
    pub fn in_file(self, file: u32) -> Offence
        ensures { result ≡ record { file = file; who = the_who.At self.at; rule = self.rule } }
    {
        Offence {
            file,
            who: Who::At(self.at),
            rule: self.rule,
        }
    }
}
