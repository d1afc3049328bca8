ghost use Rattle.std.specs.Prelude.{◌≡◌, IfOk, unwrap_or};
ghost use Rattle.std.specs.Option.{option_copied};
ghost use Rattle.std.specs.FinMap.{find};
ghost use Rattle.odd_text.specs.Key.{key_cmp};
ghost use Rattle.odd_forms.specs.Names.{tei_namespace};
ghost use Rattle.odd_library.specs.Formed.{IsFormedLibrary, IsFormedPart, IsFormedSpec, StandsAlone};
ghost use Rattle.odd_library.specs.Library.{IsEmptyLibrary, class_of as the_class_of, component_of as the_component_of, content_of, element_of as the_element_of, module_of, other_of as the_other_of};

use crate::classes_over;
use crate::spec::Spec;
use odd_attributes::AttEdits;
use odd_content::Content;
use odd_forms::TEI;
use odd_text::{Key, Kind, NoMemory, Table, Text, TryCopy, Words};
use std::alloc::Global;

/// An element of a library: its module, which may be empty, its namespace in documents and its name there, where that is not
/// its ident, the classes that it is a member of, its content and the edits of its attributes. The classes are in rising order,
/// each once.
#[derive(Drop)]
pub struct ElementPart {
    pub module: Text,
    pub ns: Text,
    pub alt: Option<Text>,
    pub classes: Words,
    pub content: Content,
    pub atts: AttEdits,
}

/// A class: its module, whether it is of type `atts`, the classes that it is a member of and the edits of its attributes.
#[derive(Drop)]
pub struct ClassPart {
    pub module: Text,
    pub gives: bool,
    pub classes: Words,
    pub atts: AttEdits,
}

/// A macro or a datatype: its module and its content.
#[derive(Drop)]
pub struct OtherPart {
    pub module: Text,
    pub content: Content,
}

impl TryCopy for ElementPart {
    fn copy(&self, alloc: Global) -> Result<ElementPart, NoMemory> {
        Ok(ElementPart {
            module: self.module.copy(alloc)?,
            ns: self.ns.copy(alloc)?,
            alt: self.alt.copy(alloc)?,
            classes: self.classes.copy(alloc)?,
            content: self.content.copy(alloc)?,
            atts: self.atts.copy(alloc)?,
        })
    }
}

impl TryCopy for ClassPart {
    fn copy(&self, alloc: Global) -> Result<ClassPart, NoMemory> {
        Ok(ClassPart {
            module: self.module.copy(alloc)?,
            gives: self.gives,
            classes: self.classes.copy(alloc)?,
            atts: self.atts.copy(alloc)?,
        })
    }
}

impl TryCopy for OtherPart {
    fn copy(&self, alloc: Global) -> Result<OtherPart, NoMemory> {
        let module = self.module.copy(alloc)?;
        let content = self.content.copy(alloc)?;
        Ok(OtherPart { module, content })
    }
}

/// A component of a library.
#[derive(Drop)]
pub enum Component {
    Element(ElementPart),
    Class(ClassPart),
    Macro(OtherPart),
    Datatype(OtherPart),
}

impl Component {
    /// What a declaration declares by itself. Without a namespace that is TEI's, without memberships it is a member of no
    /// class, and without a content the content is empty. The only error is NoMemory, for want of memory.
    pub fn of(alloc: Global, spec: Spec) -> Result<Component, NoMemory>
        ensures value { IfOk result (λ made. made ≡ the_component_of spec) }
        ensures formed { IsFormedSpec spec → StandsAlone spec.key.kind spec → IfOk result (IsFormedPart spec.key.kind) }
    {
        match spec.key.kind {
            Kind::Element => Ok(Component::Element(element_of(alloc, spec)?)),
            Kind::Class => Ok(Component::Class(class_of(alloc, spec)?)),
            Kind::Macro => Ok(Component::Macro(other_of(spec))),
            Kind::Datatype => Ok(Component::Datatype(other_of(spec))),
        }
    }

    /// The module of the component, which may be empty.
    pub fn module(&self) -> &Text
        ensures { result.now ≡ module_of self.now }
    {
        match self {
            Component::Element(part) => &part.module,
            Component::Class(part) => &part.module,
            Component::Macro(part) | Component::Datatype(part) => &part.module,
        }
    }

    /// The content of an element, a macro or a datatype.
    pub fn content(&self) -> Option<&Content>
        ensures { option_copied result ≡ content_of self.now }
    {
        match self {
            Component::Element(part) => Some(&part.content),
            Component::Class(_) => None,
            Component::Macro(part) | Component::Datatype(part) => Some(&part.content),
        }
    }
}

// The element that a declaration declares by itself.
fn element_of(alloc: Global, spec: Spec) -> Result<ElementPart, NoMemory>
    ensures { IfOk result (λ made. made ≡ the_element_of spec) }
{
    Ok(ElementPart {
        module: spec.module,
        ns: namespace_of(alloc, spec.ns)?,
        alt: spec.alt,
        classes: classes_over(alloc, spec.classes, Words::new(alloc))?,
        content: spec.content.unwrap_or(Content::Empty),
        atts: spec.atts,
    })
}

// The namespace that is given, or else TEI's.
fn namespace_of(alloc: Global, given: Option<Text>) -> Result<Text, NoMemory>
    ensures { IfOk result (λ made. made ≡ unwrap_or given tei_namespace) }
{
    match given {
        Some(ns) => Ok(ns),
        None => Text::from_str(alloc, TEI),
    }
}

// The class that it declares.
fn class_of(alloc: Global, spec: Spec) -> Result<ClassPart, NoMemory>
    ensures { IfOk result (λ made. made ≡ the_class_of spec) }
{
    Ok(ClassPart {
        module: spec.module,
        gives: spec.gives.unwrap_or(false),
        classes: classes_over(alloc, spec.classes, Words::new(alloc))?,
        atts: spec.atts,
    })
}

// The macro or the datatype that it declares.
fn other_of(spec: Spec) -> OtherPart
    ensures { result ≡ the_other_of spec }
{
    OtherPart {
        module: spec.module,
        content: spec.content.unwrap_or(Content::Empty),
    }
}

impl TryCopy for Component {
    fn copy(&self, alloc: Global) -> Result<Component, NoMemory> {
        match self {
            Component::Element(part) => Ok(Component::Element(part.copy(alloc)?)),
            Component::Class(part) => Ok(Component::Class(part.copy(alloc)?)),
            Component::Macro(part) => Ok(Component::Macro(part.copy(alloc)?)),
            Component::Datatype(part) => Ok(Component::Datatype(part.copy(alloc)?)),
        }
    }
}

/// The components of a library by key.
pub type Parts = Table<Key, Component>;

/// The components that a chain of files gives, with the last file's ident and start words.
#[derive(Drop)]
pub struct Library {
    pub ident: Text,
    pub start: Words,
    pub parts: Parts,
}

impl TryCopy for Library {
    fn copy(&self, alloc: Global) -> Result<Library, NoMemory> {
        let ident = self.ident.copy(alloc)?;
        let start = self.start.copy(alloc)?;
        let parts = self.parts.copy(alloc)?;
        Ok(Library {
            ident,
            start,
            parts,
        })
    }
}

impl Library {
    /// The library before the first file: no component, the ident `bare` and the start word `TEI`.
    pub fn empty(alloc: Global) -> Result<Library, NoMemory>
        ensures empty { IfOk result IsEmptyLibrary }
        ensures formed { IfOk result IsFormedLibrary }
    {
        let ident = Text::from_str(alloc, "bare")?;
        let mut start = Words::new(alloc);
        start.push(Text::from_str(alloc, "TEI")?)?;
        let parts = Parts::new(alloc);
        Ok(Library {
            ident,
            start,
            parts,
        })
    }

    /// The component that is held at a key.
    pub fn find(&self, key: &Key) -> Option<&Component>
        ensures { option_copied result ≡ find key_cmp key.now self.now.parts }
    {
        self.find_by(key.kind, &key.ident)
    }

    /// The component of this kind that is held by this ident.
    pub fn find_by(&self, kind: Kind, ident: &Text) -> Option<&Component>
        ensures { option_copied result ≡ find key_cmp (record { kind = kind; ident = ident.now }) self.now.parts }
    {
        let entries = self.parts.entries();
        match entries.binary_search_by(|entry| entry.0.compared(kind, ident)) {
            Ok(at) => Some(&entries[at].1),
            Err(_) => None,
        }
    }
}
