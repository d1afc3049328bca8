ghost use Rattle.std.specs.Prelude.{◌≡◌, IfOk};
ghost use Rattle.odd_library.specs.Over.{HaveOneKey, spec_joined, spec_laid};
ghost use Rattle.odd_library.specs.OverLaws.{spec_joined_follows, spec_joined_leads, spec_one_by_one, spec_regrouped};

use odd_library::{Component, Spec};
use odd_overlay::Overlay;
use odd_text::{NoMemory, TryCopy};
use sqlite_items::Boxed;
use std::alloc::Global;
use std::marker::Model;

/// A declaration of a file, which is copied only where it is laid over something or joined with another.
#[derive(Drop)]
pub struct Lent<'a> {
    spec: &'a Spec,
    // what came of joining it with others
    joined: Option<Boxed<Spec>>,
}

impl<'a> Model for Lent<'a> {
    ghost use Rattle.odd_library.specs.declared.spec.Spec.{Spec};
    ghost use Rattle.odd_library.specs.contracts.spec.Spec as declaration;
    ghost use Rattle.std.specs.Coded.{codes};
    ghost use Rattle.std.specs.Prelude.{unwrap_or};

    ghost Value = { Spec };

    ghost coded = { Prim.hlevel (codes, declaration.the_row.coded) };

    ghost view = { λ l. unwrap_or l.joined l.spec.now };
}

impl<'a> Lent<'a> {
    /// The declaration.
    pub fn of(spec: &'a Spec) -> Lent<'a>
        ensures { result ≡ spec.now }
    {
        Lent { spec, joined: None }
    }

    // The declaration, copied where it is another's. The only error is NoMemory, for want of memory.
    fn owned(self, alloc: Global) -> Result<Spec, NoMemory>
        ensures { IfOk result (λ made. made ≡ self.entry) }
    {
        match self.joined {
            Some(joined) => Ok(joined.into_inner()),
            None => self.spec.copy(alloc),
        }
    }
}

/// As a declaration is laid and joined.
impl<'a> Overlay for Lent<'a> {
    type Base = Component;

    ghost joins = { HaveOneKey };

    ghost suits = { λ spec part. Unit {0} };

    ghost joined = { spec_joined };

    ghost laid = { spec_laid };

    fn then(self, alloc: Global, later: Lent<'a>) -> Result<Lent<'a>, NoMemory> {
        let spec = self.spec;
        let made = self.owned(alloc)?.then(alloc, later.owned(alloc)?)?;
        Ok(Lent {
            spec,
            joined: Some(Boxed::new(alloc, made)?),
        })
    }

    fn over(self, alloc: Global, base: Option<Component>) -> Result<Option<Component>, NoMemory>
        ensures { IfOk result (λ made. made ≡ spec_laid self.entry base) }
    {
        self.owned(alloc)?.over(alloc, base)
    }

    ghost one_by_one = { λ a b x h k. spec_one_by_one a b x };

    ghost regrouped = { λ a b c h k. spec_regrouped a b c };

    ghost made_suits = { λ a b x y h k e. tt };

    ghost joined_leads = { spec_joined_leads };

    ghost joined_follows = { spec_joined_follows };

    ghost joined_suits = { λ a b x h k l. tt };
}
