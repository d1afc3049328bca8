ghost use Rattle.std.specs.Prelude.{◌≡◌, Option, Some, IfOk};
ghost use Rattle.std.specs.Option.{ForSome};

use odd_text::NoMemory;
use std::alloc::Global;

/// An edit, and what it is laid over.
pub trait Overlay: Sized {
    type Base;

    /// The later edit may follow the earlier one.
    ghost joins: { Self → Self → Type 0 };

    /// The edit may be laid over the base.
    ghost suits: { Self → Self.Base → Type 0 };

    /// One edit for two.
    ghost joined: { Self → Self → Self };

    /// What the edit makes of a base, or of none.
    ghost laid: { Self → Option Self.Base → Option Self.Base };

    /// This edit and then the later one, as one. The only error is NoMemory, for want of memory.
    fn then(self, alloc: Global, later: Self) -> Result<Self, NoMemory>
        requires { joins self later }
        ensures { IfOk result (λ made. made ≡ joined self later) };

    /// What the edit makes of a base, or of none. The only error is NoMemory, for want of memory.
    fn over(self, alloc: Global, base: Option<Self::Base>) -> Result<Option<Self::Base>, NoMemory>
        requires { ForSome base (suits self) }
        ensures { IfOk result (λ made. made ≡ laid self base) };

    /// To lay one and then the other is to lay both as one.
    ghost one_by_one: { (a b : Self) (x : Option Self.Base) → joins a b → ((y : Self.Base) → x ≡ Some y → suits a y) → laid b (laid a x) ≡ laid (joined a b) x };

    /// Three edits are one, however they are grouped.
    ghost regrouped: { (a b c : Self) → joins a b → joins b c → joined (joined a b) c ≡ joined a (joined b c) };

    /// What an edit makes is suited by each edit that may follow it.
    ghost made_suits: { (a b : Self) (x : Option Self.Base) (y : Self.Base) → joins a b → ((z : Self.Base) → x ≡ Some z → suits a z) → laid a x ≡ Some y → suits b y };

    /// What may follow two edits may follow the two as one.
    ghost joined_leads: { (a b c : Self) → joins a b → joins a c → joins b c → joins (joined a b) c };

    /// Two edits as one may follow what each of them may follow.
    ghost joined_follows: { (a b c : Self) → joins b c → joins a b → joins a c → joins a (joined b c) };

    /// Two edits as one suit what each of them suits.
    ghost joined_suits: { (a b : Self) (x : Self.Base) → joins a b → suits a x → suits b x → suits (joined a b) x };
}
