ghost use Rattle.std.specs.Prelude.{◌≡◌, ◌||◌, ◌&&◌, IfOk, OnOk};
ghost use Rattle.odd_text.specs.declared.key.Key.{Key as AKey};
ghost use Rattle.odd_text.specs.Same.{is_same};
ghost use Rattle.odd_library.specs.Library.{module_of};
ghost use Rattle.odd_library.specs.declared.library.Component.{Component as AComponent};
ghost use Rattle.odd_modes.specs.Choosing.{is_taken, refers};
ghost use Rattle.odd_modes.specs.Index.{AreReferencesOf, is_listed, is_listed_by_module};

use crate::named::Named;
use odd_content::Pick;
use odd_library::{Component, Entry};
use odd_text::{Key, Kind, NoMemory, TryCopy};
use std::alloc::Global;
use std::collections::{BTreeMap, BTreeSet};

/// What the references of a file refer to.
#[derive(Drop)]
pub struct References<'a> {
    keys: BTreeSet<Key>,
    // for each module that is referred to
    modules: BTreeMap<&'a str, Named<'a>>,
}

impl<'a> References<'a> {
    /// The references among items.
    pub fn among(alloc: Global, entries: &'a [Entry]) -> Result<References<'a>, NoMemory>
        ensures { IfOk result (AreReferencesOf entries.entry.now) }
    {
        let mut references = References {
            keys: BTreeSet::new(alloc),
            modules: BTreeMap::new(alloc),
        };
        for entry in entries {
            references.add(alloc, entry)?;
        }
        Ok(references)
    }

    // Adds the reference of an item, where it has one.
    fn add(&mut self, alloc: Global, entry: &'a Entry) -> Result<(), NoMemory>
        ensures { OnOk result ((key : AKey) (part : AComponent) → is_listed self.new key part ≡ (is_listed self.old key part || refers entry.now key part)) }
    {
        match entry {
            Entry::Module { at: _, key, pick } => self.add_module(alloc, key.as_str(), pick),
            Entry::Take { at: _, key } => {
                self.keys.insert(key.copy(alloc)?)?;
                Ok(())
            }
            Entry::Spec { .. } => Ok(()),
        }
    }

    // Adds a reference to a module.
    fn add_module(&mut self, alloc: Global, module: &'a str, pick: &'a Pick) -> Result<(), NoMemory>
        ensures { OnOk result ((key : AKey) (part : AComponent) → is_listed self.new key part ≡ (is_listed self.old key part || (is_same «module».now (module_of part) && is_taken pick.now key.kind key.ident))) }
    {
        let none = Named::Only(BTreeSet::new(alloc));
        let named = self.modules.remove(module).unwrap_or(none);
        self.modules.insert(module, named.and(alloc, pick)?)?;
        Ok(())
    }

    /// Whether one of them refers to the component that is held at a key.
    pub fn refer(&self, key: &Key, part: &Component) -> bool
        ensures { result ≡ is_listed self.now key.now part.now }
    {
        self.keys.contains(key) || self.refer_by_module(key, part)
    }

    // Whether one of them refers to it by its module.
    fn refer_by_module(&self, key: &Key, part: &Component) -> bool
        ensures { result ≡ is_listed_by_module self.now key.now part.now }
    {
        match self.modules.get(part.module().as_str()) {
            Some(named) => key.kind != Kind::Element || named.names(key.ident.as_str()),
            None => false,
        }
    }
}
