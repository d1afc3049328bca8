ghost use Rattle.std.specs.Prelude.{◌≡◌, ◌≢◌, ◌↔◌, [], All, IfOk, IsTrue, Some};
ghost use Rattle.std.specs.Char.{is_ascii_digit};
ghost use Rattle.std.specs.List.{list_all};
ghost use Rattle.odd_tree.specs.Elements.{given};
ghost use Rattle.odd_forms.specs.Faults.{AttributeFault, ValueFault};
ghost use Rattle.odd_forms.specs.Form.{IsAttributeName, Suits, are_digits as the_are_digits, number_told};
ghost use Rattle.odd_forms.specs.Words.{words_of as the_words_of};
ghost use Rattle.odd_text.specs.Least.{IsLeast};
ghost use Rattle.odd_forms.specs.Seen as seen;
ghost use Rattle.odd_tokens.specs.Characters.{IsNCName};

use crate::faults::{LEFT_OUT, MALFORMED, fault_where};
use crate::form::{AttributeForm, Kind};
use odd_text::{NoMemory, Text, is_among};
use odd_tokens::is_space;
use odd_tree::{Tree, attribute, is_ncname};
use rng_types::words_of;
use std::alloc::Global;

/// The least rule that an element breaks by an attribute that it may have.
pub fn attribute_fault(
    alloc: Global,
    form: &AttributeForm,
    tree: &Tree,
) -> Result<Option<u8>, NoMemory>
    ensures { IfOk result (IsLeast (AttributeFault (seen.attribute form.now) tree.now)) }
{
    match attribute(&tree.attrs, form.local()) {
        Some(value) => value_fault(alloc, form, value),
        None => Ok(fault_where(form.is_needed(), MALFORMED)),
    }
}

// The least rule that a value breaks that is given for an attribute.
fn value_fault(alloc: Global, form: &AttributeForm, value: &Text) -> Result<Option<u8>, NoMemory>
    ensures { IfOk result (IsLeast (ValueFault (seen.attribute form.now) value.now)) }
{
    match form {
        AttributeForm::Needed(_, kind) | AttributeForm::Optional(_, kind) => {
            Ok(fault_where(!suits(alloc, kind, value)?, MALFORMED))
        }
        AttributeForm::Word { left_out, .. } if is_among(left_out, value) => Ok(Some(LEFT_OUT)),
        AttributeForm::Word { words, rule, .. } => Ok(fault_where(!is_among(words, value), *rule)),
    }
}

/// Whether a value is of the kind. The only error is NoMemory, for want of memory.
pub fn suits(alloc: Global, kind: &Kind, value: &Text) -> Result<bool, NoMemory>
    ensures { IfOk result (λ b. IsTrue b ↔ Suits (seen.kind kind.now) value.now) }
{
    match kind {
        Kind::Name => Ok(is_ncname(value)),
        Kind::Names => {
            let words = words_of(alloc, value.as_str())?;
            Ok(!words.is_empty() && are_names(words.as_slice()))
        }
        Kind::AnyNames => Ok(are_names(words_of(alloc, value.as_str())?.as_slice())),
        Kind::Digits => Ok(are_digits(value)),
        Kind::Count => Ok(are_digits(value) || value.as_str() == "unbounded"),
        Kind::AttributeName => is_attribute_name(alloc, value),
        Kind::Filled => Ok(is_filled(value)),
        Kind::Text => Ok(true),
    }
}

// Whether a value is an NCName, or one after `xml:`.
fn is_attribute_name(alloc: Global, value: &Text) -> Result<bool, NoMemory>
    ensures { IfOk result (λ b. IsTrue b ↔ IsAttributeName value.now) }
{
    match value.as_str().strip_prefix("xml:") {
        Some(local) => Ok(is_ncname(&Text::from_str(alloc, local)?)),
        None => Ok(is_ncname(value)),
    }
}

/// Whether a value has more than white space.
pub fn is_filled(value: &Text) -> bool
    ensures { IsTrue result ↔ (the_words_of value.now ≢ []) }
{
    value.as_str().chars().any(|c| !is_space(c))
}

// Whether these are all NCNames.
fn are_names(words: &[Text]) -> bool
    ensures { IsTrue result ↔ All IsNCName words.now }
{
    for word in words {
        if !is_ncname(word) {
            return false;
        }
    }
    true
}

// Whether a value is 1 to 9 digits.
fn are_digits(value: &Text) -> bool
    ensures { result ≡ the_are_digits value.now }
{
    let bytes = value.as_str().as_bytes();
    !bytes.is_empty() && bytes.len() <= 9 && are_all_digits(bytes)
}

// Whether each byte is a digit.
fn are_all_digits(bytes: &[u8]) -> bool
    ensures { result ≡ list_all is_ascii_digit bytes.now }
{
    bytes.iter().all(|b| b.is_ascii_digit())
}

/// The number that an attribute tells: 1 where it is absent, and none where it is not 1 to 9 digits.
pub fn number(tree: &Tree, local: &str) -> Option<u32>
    ensures { result ≡ number_told (given tree.now local.now) }
{
    match attribute(&tree.attrs, local) {
        Some(value) => number_of(value),
        None => Some(1),
    }
}

// The number that 1 to 9 digits tell.
fn number_of(value: &Text) -> Option<u32>
    ensures { result ≡ number_told (Some value.now) }
{
    if are_digits(value) {
        value.as_str().parse::<u32>().ok()
    } else {
        None
    }
}
