ghost use Rattle.std.specs.Prelude.{◌≡◌, map, IfOk};
ghost use Rattle.odd_forms.specs.Children.{GivesOne};
ghost use Rattle.odd_tree.specs.Elements.{all_binds, children_of, within};
ghost use Rattle.odd_forms.specs.declared.element.Element.TheVariants as the_element;
ghost use Rattle.odd_content.specs.Giving.{IsContentOf};
ghost use Rattle.odd_decls.specs.Declares.{AreAttsDeclared, alt_declared as the_alt_declared, content_of as the_content_of, mode_given, mode_named as the_mode_named, namespace_around as the_namespace_around, namespace_by, namespace_with, type_given};
ghost use Rattle.odd_decls.specs.Items.{IsTold, kind_declared as the_kind_declared};
ghost use Rattle.odd_decls.specs.ItemReading.{IsEntryMade, IsSpecRead};

use crate::items::key_given;
use odd_attributes::{AttEdits, edits_given, read_alt};
use odd_content::{Content, content_in};
use odd_forms::{Element, TEI, child_of_kind};
use odd_items::Item;
use odd_library::{Entry, Membership, Mode, Spec, classes_given};
use odd_text::{Key, Kind, NoMemory, Text, TryCopy};
use odd_tree::{Bindings, Tree, attribute, entered};
use std::alloc::Global;

/// What a declaration declares, where it has a key. `ns` is the namespace of elements that give none themselves, and `around` are
/// the declarations around it, level by level.
pub fn spec_entry(
    alloc: Global,
    ns: &Text,
    element: Element,
    spec: &Item<'_>,
    around: &[&Bindings],
) -> Result<Option<Entry>, NoMemory>
    ensures { IsTold spec.now → IfOk result (IsSpecRead ns.now (all_binds (map (λ b. b.now) around.now)) element spec.now.tree.now) }
{
    let content = content_given(alloc, element, spec.tree, around)?;
    let classes = classes_given(alloc, element, spec.tree)?;
    entry(alloc, ns, spec, content, classes)
}

// The content that a declaration gives, where it gives one.
fn content_given(
    alloc: Global,
    element: Element,
    spec: &Tree,
    around: &[&Bindings],
) -> Result<Option<Content>, NoMemory>
    ensures { IfOk result (GivesOne element (the_content_of element) (IsContentOf (within (all_binds (map (λ b. b.now) around.now)) spec.now)) (children_of spec.now)) }
{
    let Some(content) = child_of_kind(element, content_of(element), spec) else {
        return Ok(None);
    };
    if spec.binds.is_empty() {
        return Ok(Some(content_in(alloc, content, around)?));
    }
    let own = Bindings::new(alloc, spec.binds.copy(alloc)?)?;
    let inside = entered(alloc, around, &own)?;
    Ok(Some(content_in(alloc, content, inside.as_slice())?))
}

// The `content` of a declaration, which in that of a datatype has a form of its own.
fn content_of(element: Element) -> Element
    ensures { result ≡ the_content_of element }
{
    match element {
        Element::DataSpec => Element::DataContent,
        _ => Element::Content,
    }
}

// The entry of a declaration with what its children give, where it has a key.
fn entry(
    alloc: Global,
    ns: &Text,
    spec: &Item<'_>,
    content: Option<Content>,
    classes: Option<Membership>,
) -> Result<Option<Entry>, NoMemory>
    ensures { IsTold spec.now → IfOk result (IsEntryMade ns.now spec.now.tree.now content classes) }
{
    let Some((kind, ident)) = key_given(spec) else {
        return Ok(None);
    };
    let item = spec.tree;
    let module = match attribute(&item.attrs, "module") {
        Some(module) => module.copy(alloc)?,
        None => Text::new(alloc),
    };
    let mode = mode_of(item);
    let ns = namespace_declared(alloc, kind, mode, ns, item)?;
    let alt = alt_declared(alloc, kind, item)?;
    let gives = type_of(kind, item);
    let atts = atts_declared(alloc, kind, item)?;
    let ident = ident.copy(alloc)?;
    Ok(Some(Entry::Spec {
        at: item.at,
        spec: Spec {
            key: Key { kind, ident },
            mode,
            module,
            ns,
            alt,
            gives,
            classes,
            content,
            atts,
        },
    }))
}

// The name in documents that the declaration of an element gives; other components have none.
fn alt_declared(alloc: Global, kind: Kind, item: &Tree) -> Result<Option<Text>, NoMemory>
    ensures { IfOk result (λ alt. alt ≡ the_alt_declared kind item.now) }
{
    match kind {
        Kind::Element => read_alt(alloc, item),
        Kind::Class | Kind::Macro | Kind::Datatype => Ok(None),
    }
}

// The edits of attributes that the declaration of an element or a class gives; other components have none.
fn atts_declared(alloc: Global, kind: Kind, item: &Tree) -> Result<AttEdits, NoMemory>
    ensures { IfOk result (AreAttsDeclared kind item.now) }
{
    match kind {
        Kind::Element | Kind::Class => edits_given(alloc, item),
        Kind::Macro | Kind::Datatype => Ok(AttEdits::new(alloc)),
    }
}

// Whether a declaration says of a class that it is of type `atts`, where it says it.
fn type_of(kind: Kind, item: &Tree) -> Option<bool>
    ensures { result ≡ type_given kind item.now }
{
    match (kind, attribute(&item.attrs, "type")) {
        (Kind::Class, Some(word)) => Some(word.as_str() == "atts"),
        _ => None,
    }
}

// What a declaration does: it adds, where its `mode` says nothing else.
fn mode_of(item: &Tree) -> Mode
    ensures { result ≡ mode_given item.now }
{
    match attribute(&item.attrs, "mode") {
        Some(word) => mode_named(word.as_str()),
        None => Mode::Add,
    }
}

fn mode_named(word: &str) -> Mode
    ensures { result ≡ the_mode_named word.now }
{
    match word {
        "delete" => Mode::Delete,
        "change" => Mode::Change,
        "replace" => Mode::Replace,
        _ => Mode::Add,
    }
}

// The namespace that a declaration gives: only an element has one.
fn namespace_declared(
    alloc: Global,
    kind: Kind,
    mode: Mode,
    around: &Text,
    item: &Tree,
) -> Result<Option<Text>, NoMemory>
    ensures { IfOk result (λ ns. ns ≡ namespace_with kind mode around.now item.now) }
{
    match kind {
        Kind::Element => namespace(alloc, mode, around, item),
        Kind::Class | Kind::Macro | Kind::Datatype => Ok(None),
    }
}

// The namespace of an element in documents that a declaration gives: its own, and for one that adds or replaces else the one
// around it.
fn namespace(
    alloc: Global,
    mode: Mode,
    around: &Text,
    item: &Tree,
) -> Result<Option<Text>, NoMemory>
    ensures { IfOk result (λ ns. ns ≡ namespace_by mode around.now item.now) }
{
    if let Some(own) = attribute(&item.attrs, "ns") {
        return Ok(Some(own.copy(alloc)?));
    }
    match mode {
        Mode::Add | Mode::Replace => Ok(Some(around.copy(alloc)?)),
        Mode::Change | Mode::Delete => Ok(None),
    }
}

/// The namespace of the elements of a `schemaSpec` that give none themselves: its own, or else TEI's.
pub fn namespace_around(alloc: Global, schema: &Tree) -> Result<Text, NoMemory>
    ensures { IfOk result (λ ns. ns ≡ the_namespace_around schema.now) }
{
    match attribute(&schema.attrs, "ns") {
        Some(own) => own.copy(alloc),
        None => Text::from_str(alloc, TEI),
    }
}

/// The kind of the component that an item of the schema declares.
pub fn kind_declared(element: Element) -> Option<Kind>
    ensures { result ≡ the_kind_declared element }
{
    match element {
        Element::ElementSpec => Some(Kind::Element),
        Element::ClassSpec => Some(Kind::Class),
        Element::MacroSpec => Some(Kind::Macro),
        Element::DataSpec => Some(Kind::Datatype),
        _ => None,
    }
}
