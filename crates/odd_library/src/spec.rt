use crate::Membership;
use odd_attributes::AttEdits;
use odd_content::Content;
use odd_text::{Key, NoMemory, Text, TryCopy};
use std::alloc::Global;

/// What a declaration does to the component of its key that was declared before.
#[derive(Clone, Copy, Debug, PartialEq, Eq)]
pub enum Mode {
    /// There is a new component.
    Add,
    /// There is none any more.
    Delete,
    /// What is given is laid over it (docs/merging.md): its module stays, as does the type of a class.
    Change,
    /// There is a new component in its place.
    Replace,
}

/// A declaration of a component. `module` is empty where none is given, `ns` is the namespace of an element in documents: one
/// that is added or replaced has one; and `alt` is its name there, where that is not its ident. `gives` says of a class whether
/// it is of type `atts`: one that is added or replaced says it.
#[derive(Drop)]
pub struct Spec {
    pub key: Key,
    pub mode: Mode,
    pub module: Text,
    pub ns: Option<Text>,
    pub alt: Option<Text>,
    pub gives: Option<bool>,
    pub classes: Option<Membership>,
    pub content: Option<Content>,
    pub atts: AttEdits,
}

impl TryCopy for Spec {
    fn copy(&self, alloc: Global) -> Result<Spec, NoMemory> {
        Ok(Spec {
            key: self.key.copy(alloc)?,
            mode: self.mode,
            module: self.module.copy(alloc)?,
            ns: self.ns.copy(alloc)?,
            alt: self.alt.copy(alloc)?,
            gives: self.gives,
            classes: self.classes.copy(alloc)?,
            content: self.content.copy(alloc)?,
            atts: self.atts.copy(alloc)?,
        })
    }
}
