ghost use Rattle.std.specs.Prelude.{◌≡◌, IfOk, map};
ghost use Rattle.odd_tree.specs.Elements.{all_binds};
ghost use Rattle.odd_forms.specs.Excepting.{excepted_of, is_unbound as the_is_unbound};

use odd_text::{Name, NoMemory, Text, TryCopy};
use odd_tree::{Bindings, is_ncname, namespace_of};
use std::alloc::Global;

/// What a word of `except` names.
#[derive(Drop)]
pub enum Excepted {
    /// A namespace.
    Space(Text),
    /// A name whose prefix is bound.
    Name(Name),
    /// A name whose prefix is not bound.
    Unbound,
}

/// What a word of `except` names under these declarations: a word of the form NCName, colon, NCName is a prefixed name,
/// and any other is a namespace.
pub fn read_excepted(alloc: Global, inside: &[&Bindings], word: &Text) -> Result<Excepted, NoMemory>
    ensures { IfOk result (λ read. read ≡ excepted_of (all_binds (map (λ b. b.now) inside.now)) word.now) }
{
    let Some((prefix, local)) = word.as_str().split_once(':') else {
        return Ok(Excepted::Space(word.copy(alloc)?));
    };
    let prefix = Text::from_str(alloc, prefix)?;
    let local = Text::from_str(alloc, local)?;
    if !is_ncname(&prefix) || !is_ncname(&local) {
        return Ok(Excepted::Space(word.copy(alloc)?));
    }
    match namespace_of(alloc, inside, &prefix)? {
        Some(ns) => Ok(Excepted::Name(Name { ns, local })),
        None => Ok(Excepted::Unbound),
    }
}

/// Whether a word of `except` is a prefixed name whose prefix is not bound.
pub fn is_unbound(alloc: Global, inside: &[&Bindings], word: &Text) -> Result<bool, NoMemory>
    ensures { IfOk result (λ b. b ≡ the_is_unbound (excepted_of (all_binds (map (λ b. b.now) inside.now)) word.now)) }
{
    match read_excepted(alloc, inside, word)? {
        Excepted::Unbound => Ok(true),
        _ => Ok(false),
    }
}
