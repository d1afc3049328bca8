ghost use Rattle.std.specs.Prelude.{◌≡◌, ◌↔◌, ℕ, Err, IfOk, IsOk, IsTrue};
ghost use Rattle.odd_text.specs.declared.key.Key.{Key as AKey};
ghost use Rattle.odd_text.specs.Standing.{StandsIn};
ghost use Rattle.odd_library.specs.declared.library.ClassPart.{ClassPart as AClassPart};
ghost use Rattle.odd_library.specs.declared.library.Component.TheVariants as the_component;
ghost use Rattle.odd_meaning.specs.Links.{named_by};
ghost use Rattle.odd_meaning.specs.Rules.{BreaksWithin, IsFirstBreak};
ghost use Rattle.odd_classes.specs.Placing.{IsWrong, kind_of, rule_of};

use crate::cycles::CycleRefusal;
use crate::links::named;
use odd_library::{Component, Library};
use odd_text::{Key, Kind, NoMemory, Text, TryCopy};
use std::alloc::Global;

/// Why a library breaks a rule.
#[derive(Debug, Drop)]
pub enum LibraryRefusal {
    /// The component at the key breaks the rule.
    Rule { key: Key, rule: u8 },
    NoMemory,
}

/// A reference that a component may not have.
#[derive(Clone, Copy, Drop)]
pub enum WrongReference {
    /// To a macro that is not held.
    MacroNotHeld,
    /// To a datatype that is not held.
    DatatypeNotHeld,
    /// To a class of type `atts`.
    OfAttributes,
}

impl WrongReference {
    // The rule that forbids it.
    fn rule(self) -> u8
        ensures { result ≡ rule_of self }
    {
        match self {
            WrongReference::MacroNotHeld => 11,
            WrongReference::DatatypeNotHeld => 12,
            WrongReference::OfAttributes => 17,
        }
    }

    // The kind of what it is to.
    fn kind(self) -> Kind
        ensures { result ≡ kind_of self }
    {
        match self {
            WrongReference::MacroNotHeld => Kind::Macro,
            WrongReference::DatatypeNotHeld => Kind::Datatype,
            WrongReference::OfAttributes => Kind::Class,
        }
    }
}

/// Rule is answered for the first component that names what it may not. NoMemory is answered for want of memory.
pub fn check_names(
    alloc: Global,
    library: &Library,
    wrong: WrongReference,
) -> Result<(), LibraryRefusal>
    ensures none { IsOk result → (key : AKey) (rule : ℕ) → BreaksWithin (rule_of wrong) (rule_of wrong) library.now key rule → ⊥ }
    ensures first { (key : AKey) (rule : ℕ) → result ≡ Err (LibraryRefusal.Rule key rule) → IsFirstBreak (BreaksWithin (rule_of wrong) (rule_of wrong) library.now) key rule }
{
    for (key, part) in library.parts.entries() {
        if names(alloc, library, wrong, part)? {
            let key = key.copy(alloc)?;
            let rule = wrong.rule();
            return Err(LibraryRefusal::Rule { key, rule });
        }
    }
    Ok(())
}

// Whether a component names what it may not.
fn names(
    alloc: Global,
    library: &Library,
    wrong: WrongReference,
    part: &Component,
) -> Result<bool, NoMemory>
    ensures { IfOk result (λ b. IsTrue b ↔ ((key : AKey) × StandsIn (named_by part.now) key × IsWrong library.now wrong key)) }
{
    for key in named(alloc, wrong.kind(), part)?.as_slice() {
        if is_wrong(library, wrong, key.kind, &key.ident) {
            return Ok(true);
        }
    }
    Ok(false)
}

// Whether a component may not name one of a kind by an ident.
fn is_wrong(library: &Library, wrong: WrongReference, kind: Kind, ident: &Text) -> bool
    ensures { IsTrue result ↔ IsWrong library.now wrong (record { kind = kind; ident = ident.now }) }
{
    match (wrong, kind) {
        (WrongReference::MacroNotHeld, Kind::Macro) => library.find_by(kind, ident).is_none(),
        (WrongReference::DatatypeNotHeld, Kind::Datatype) => {
            library.find_by(kind, ident).is_none()
        }
        (WrongReference::OfAttributes, Kind::Class) => match library.find_by(kind, ident) {
            Some(part) => is_of_attributes(part),
            None => false,
        },
        _ => false,
    }
}

// Whether a component is a class of type `atts`.
fn is_of_attributes(part: &Component) -> bool
    ensures { IsTrue result ↔ ((class : AClassPart) × (part.now ≡ the_component.Class class) × IsTrue class.gives) }
{
    match part {
        Component::Class(part) => part.gives,
        Component::Element(_) | Component::Macro(_) | Component::Datatype(_) => false,
    }
}

impl From<NoMemory> for LibraryRefusal {
    ghost use Rattle.odd_classes.specs.declared.rules.LibraryRefusal.TheVariants as refusal;

    ghost from_gives = { λ _ error. error ≡ refusal.NoMemory };

    fn from(_error: NoMemory) -> LibraryRefusal {
        LibraryRefusal::NoMemory
    }
}

impl From<CycleRefusal> for LibraryRefusal {
    ghost use Rattle.odd_classes.specs.Placing.{as_library};

    ghost from_gives = { λ refusal made. made ≡ as_library refusal };

    fn from(refusal: CycleRefusal) -> LibraryRefusal {
        match refusal {
            CycleRefusal::Loop { key, rule } => LibraryRefusal::Rule { key, rule },
            CycleRefusal::NoMemory => LibraryRefusal::NoMemory,
        }
    }
}
