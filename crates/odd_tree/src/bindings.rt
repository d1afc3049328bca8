ghost use Rattle.std.specs.Prelude.{◌≡◌, IfOk};
ghost use Rattle.std.specs.Option.{option_copied};
ghost use Rattle.odd_tree.specs.Names.{last_bound};

use odd_text::{NoMemory, Scope, Text, TryCopy};
use std::alloc::Global;
use std::collections::BTreeMap;
use std::marker::Model;

/// The namespace declarations of a tag in its order, and an index of them by prefix.
#[derive(Drop)]
pub struct Bindings {
    binds: Scope,
    index: BTreeMap<Text, Text>,
}

impl Model for Bindings {
    ghost use Rattle.std.specs.Prelude.{◌≡◌, ℕ, List};
    ghost use Rattle.std.specs.BTreeMap.{get};
    ghost use Rattle.odd_text.specs.Text.{text_cmp};
    ghost use Rattle.odd_text.specs.declared.name.Bind.{Bind as ABind};
    ghost use Rattle.odd_tree.specs.Names.{last_bound};

    ghost Value = { List ABind };

    ghost view = { λ b. b.binds };

    ghost invariant = { λ b. (prefix : List ℕ) → get text_cmp b.index prefix ≡ last_bound b.binds prefix };
}

impl Bindings {
    /// The bindings of these declarations, of which a later one of a prefix is in force in place of an earlier one.
    pub fn new(alloc: Global, binds: Scope) -> Result<Bindings, NoMemory>
        ensures { IfOk result (λ made. made ≡ binds) }
    {
        let mut index = BTreeMap::new(alloc);
        for bind in binds.as_slice() {
            index.insert(bind.prefix.copy(alloc)?, bind.ns.copy(alloc)?)?;
        }
        Ok(Bindings { binds, index })
    }

    /// The namespace to which a prefix is bound.
    pub fn find(&self, prefix: &Text) -> Option<&Text>
        ensures { option_copied result ≡ last_bound self.now prefix.now }
    {
        self.index.get(prefix)
    }

    /// The declarations themselves.
    pub fn into_scope(self) -> Scope
        ensures { result ≡ self }
    {
        let Bindings { binds, index: _ } = self;
        binds
    }
}
