ghost use Rattle.std.specs.Prelude.{◌≡◌, IfOk};
ghost use Rattle.odd_overlay.specs.Marks.{mark_joined, mark_laid, mark_one_by_one};

use crate::overlay::Overlay;
use odd_text::NoMemory;
use std::alloc::Global;

/// A mark puts a word in (true) or takes it out (false).
impl Overlay for bool {
    ghost use Rattle.std.specs.Prelude.{refl};

    type Base = ();

    ghost joins = { λ a b. Unit {0} };

    ghost suits = { λ a x. Unit {0} };

    ghost joined = { mark_joined };

    ghost laid = { mark_laid };

    fn then(self, _alloc: Global, later: bool) -> Result<bool, NoMemory> {
        Ok(later)
    }

    fn over(self, _alloc: Global, base: Option<()>) -> Result<Option<()>, NoMemory>
        ensures { IfOk result (λ made. made ≡ mark_laid self base) }
    {
        let _ = base;
        if self { Ok(Some(())) } else { Ok(None) }
    }

    ghost one_by_one = { λ a b x h k. mark_one_by_one a b x };

    ghost regrouped = { λ a b c h k. refl };

    ghost made_suits = { λ a b x y h k e. tt };

    ghost joined_leads = { λ a b c h k l. tt };

    ghost joined_follows = { λ a b c h k l. tt };

    ghost joined_suits = { λ a b x h k l. tt };
}
