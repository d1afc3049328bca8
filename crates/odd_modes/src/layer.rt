ghost use Rattle.std.specs.Prelude.{◌≡◌, ◌<◌, true, false, map, IfOk, OnOk, IsTrue, vec_len};
ghost use Rattle.std.specs.FinMap.{find, is_sorted};
ghost use Rattle.odd_text.specs.Key.{key_cmp};
ghost use Rattle.odd_text.specs.declared.key.Key.{Key as AKey};
ghost use Rattle.odd_modes.specs.After.{spec_at};
ghost use Rattle.odd_modes.specs.Index.{kept_at, put_over};
ghost use Rattle.odd_modes.specs.Layering.{AreBelow, AreKeyed, AreRising, is_at, is_below as the_first_is_below, last_of, specs_of, still_to_put, waiting};

use crate::lent::Lent;
use crate::references::References;
use crate::sweeping::Act;
use odd_library::{Entry, Library, Spec};
use odd_text::{Key, Keyed, NoMemory, Table, TryCopy};
use std::alloc::Global;

/// What a file does at keys.
pub type Layer<'a> = Table<Key, Act<Lent<'a>>>;

/// What a file does to a library, by key: its declarations are put, and what else its references refer to is kept.
pub fn layer_of<'a>(
    alloc: Global,
    library: &Library,
    references: &References<'_>,
    entries: &'a [Entry],
) -> Result<Layer<'a>, NoMemory>
    ensures { IfOk result (λ layer. (key : AKey) → find key_cmp key layer ≡ put_over (spec_at entries.now key) (kept_at references.now key (find key_cmp key library.now.parts))) }
{
    let mut specs = specs_by_key(alloc, entries)?;
    specs.reverse();
    let mut layer = Table::new(alloc);
    for (key, part) in library.parts.entries() {
        put_below(alloc, &mut layer, &mut specs, key)?;
        if !is_next(specs.as_slice(), key) && references.refer(key, part) {
            layer.push(key.copy(alloc)?, Act::Keep)?;
        }
    }
    put_all(alloc, &mut layer, &mut specs)?;
    Ok(layer)
}

// The declarations of a file in rising order of key, and those of one key as they stand.
fn specs_by_key<'a>(alloc: Global, entries: &'a [Entry]) -> Result<Vec<&'a Spec>, NoMemory>
    ensures rising { IfOk result (λ specs. AreRising (map (λ s. s.now) specs.items)) }
    ensures last { IfOk result (λ specs. (key : AKey) → last_of (map (λ s. s.now) specs.items) key ≡ spec_at entries.entry.now key) }
{
    let mut keyed = keyed_specs(alloc, entries)?;
    keyed.sort()?;
    let mut specs = Vec::new(alloc);
    for one in keyed {
        specs.push(one.value)?;
    }
    Ok(specs)
}

// The declarations of a file by their keys, as they stand.
fn keyed_specs<'a>(
    alloc: Global,
    entries: &'a [Entry],
) -> Result<Vec<Keyed<'a, &'a Spec>>, NoMemory>
    ensures { IfOk result (λ keyed. AreKeyed (specs_of entries.entry.now) keyed.items) }
{
    let mut keyed = Vec::new(alloc);
    for entry in entries {
        if let Entry::Spec { at: _, spec } = entry {
            keyed.push(Keyed {
                kind: spec.key.kind,
                ident: spec.key.ident.as_str(),
                value: spec,
            })?;
        }
    }
    Ok(keyed)
}

// Puts the declarations below a key. The list has the first to be put last.
fn put_below<'a>(
    alloc: Global,
    layer: &mut Layer<'a>,
    specs: &mut Vec<&'a Spec>,
    key: &Key,
) -> Result<(), NoMemory>
    requires { IsTrue (is_sorted key_cmp (waiting layer.old (still_to_put specs.old.items))) }
    ensures same { OnOk result (waiting layer.new (still_to_put specs.new.items) ≡ waiting layer.old (still_to_put specs.old.items)) }
    ensures below { OnOk result (AreBelow layer.old key.now → AreBelow layer.new key.now) }
    ensures rest { OnOk result (the_first_is_below (still_to_put specs.new.items) key.now ≡ false) }
{
    while is_below(specs.as_slice(), key) {
        put_next(alloc, layer, specs)?;
    }
    Ok(())
}

// Puts all declarations. The list has the first to be put last.
fn put_all<'a>(
    alloc: Global,
    layer: &mut Layer<'a>,
    specs: &mut Vec<&'a Spec>,
) -> Result<(), NoMemory>
    requires { IsTrue (is_sorted key_cmp (waiting layer.old (still_to_put specs.old.items))) }
    ensures { OnOk result (layer.new ≡ waiting layer.old (still_to_put specs.old.items)) }
{
    while !specs.is_empty() {
        put_next(alloc, layer, specs)?;
    }
    Ok(())
}

// Puts the next declaration, where it is the last at its key.
fn put_next<'a>(
    alloc: Global,
    layer: &mut Layer<'a>,
    specs: &mut Vec<&'a Spec>,
) -> Result<(), NoMemory>
    requires some { 0 < vec_len specs.old }
    requires rising { IsTrue (is_sorted key_cmp (waiting layer.old (still_to_put specs.old.items))) }
    ensures same { OnOk result (waiting layer.new (still_to_put specs.new.items) ≡ waiting layer.old (still_to_put specs.old.items)) }
    ensures below { (key : AKey) → the_first_is_below (still_to_put specs.old.items) key ≡ true → OnOk result (AreBelow layer.old key → AreBelow layer.new key) }
    ensures fewer { OnOk result (vec_len specs.new < vec_len specs.old) }
{
    let Some(spec) = specs.pop() else {
        return Ok(());
    };
    if is_next(specs.as_slice(), &spec.key) {
        return Ok(());
    }
    let key = spec.key.copy(alloc)?;
    layer.push(key, Act::Put(Lent::of(spec)))
}

// Whether the next declaration is below a key.
fn is_below(specs: &[&Spec], key: &Key) -> bool
    ensures { result ≡ the_first_is_below (still_to_put specs.now) key.now }
{
    match specs.last() {
        Some(spec) => spec.key < *key,
        None => false,
    }
}

// Whether the next declaration is at a key.
fn is_next(specs: &[&Spec], key: &Key) -> bool
    ensures { result ≡ is_at (still_to_put specs.now) key.now }
{
    match specs.last() {
        Some(spec) => spec.key == *key,
        None => false,
    }
}
