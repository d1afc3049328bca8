ghost use Rattle.std.specs.Prelude.{◌≡◌, ◌++◌, ◌<◌, ◌^◌, suc, IfOk, OnOk};
ghost use Rattle.odd_emit.specs.Contents.{condition_said, prefix, prefix_if, prefixes_of};
ghost use Rattle.odd_emit.specs.Contents.{begins as the_begins, except_words as the_except_words, number_at as the_number_at, prefix_for as the_prefix_for, prefixed as the_prefixed};
ghost use Rattle.odd_emit.specs.Saying.{declared_printed, said_printed};

use crate::saying::add_words;
use itoa::Buffer;
use odd_content::Condition;
use odd_printing::add_attribute;
use odd_text::{Name, NoMemory, Text, TryCopy, Words};
use odd_tree::XML;
use std::alloc::Global;

/// Puts what a condition asks of elements, by the prefixes that `add_prefixes` declares.
pub fn add_condition(out: &mut Text, alloc: Global, condition: &Condition) -> Result<(), NoMemory>
    ensures { OnOk result (out.new ≡ out.old ++ said_printed (condition_said condition.now)) }
{
    add_words(out, alloc, "require", &condition.require)?;
    let words = except_words(alloc, condition)?;
    add_words(out, alloc, "except", &words)
}

// Whether a namespace is declared where a name of it stands after one of the namespace before.
fn begins(before: &str, ns: &str) -> bool
    ensures { result ≡ the_begins before.now ns.now }
{
    !(ns == before || ns == XML)
}

// The number of a namespace where a name of it stands after one of the namespace before, and so many are numbered so far.
fn number_at(before: &str, ns: &str, count: u64) -> u64
    requires { suc count < 2 ^ 64 }
    ensures { result ≡ the_number_at before.now ns.now count }
{
    if begins(before, ns) { count + 1 } else { count }
}

/// Declares a prefix for each namespace of the names that a condition excepts.
pub fn add_prefixes(out: &mut Text, alloc: Global, condition: &Condition) -> Result<(), NoMemory>
    ensures { OnOk result (out.new ≡ out.old ++ declared_printed (prefixes_of condition.now)) }
{
    let mut before = XML;
    let mut count = 0u64;
    for name in condition.names.as_slice() {
        let ns = name.ns.as_str();
        count = number_at(before, ns, count);
        add_prefix_if(out, alloc, begins(before, ns), count, ns)?;
        before = ns;
    }
    Ok(())
}

// The prefix of a number.
fn prefix_of(alloc: Global, number: u64) -> Result<Text, NoMemory>
    ensures { IfOk result (λ made. made ≡ prefix number) }
{
    let mut made = Text::from_str(alloc, "n")?;
    let mut buffer = Buffer::new();
    made.push_str(buffer.format(number))?;
    Ok(made)
}

// Declares the prefix of the number for a namespace that is new.
fn add_prefix_if(
    out: &mut Text,
    alloc: Global,
    is_new: bool,
    number: u64,
    ns: &str,
) -> Result<(), NoMemory>
    ensures { OnOk result (out.new ≡ out.old ++ declared_printed (prefix_if is_new number ns.now)) }
{
    if !is_new {
        return Ok(());
    }
    let mut name = Text::from_str(alloc, "xmlns:")?;
    name.push_str(prefix_of(alloc, number)?.as_str())?;
    add_attribute(out, name.as_str(), ns)
}

// The prefix that a name of a namespace stands by, where this is the namespace's number.
fn prefix_for(alloc: Global, number: u64, ns: &str) -> Result<Text, NoMemory>
    ensures { IfOk result (λ made. made ≡ the_prefix_for number ns.now) }
{
    if ns == XML {
        return Text::from_str(alloc, "xml");
    }
    prefix_of(alloc, number)
}

// A name as it is written, where this is the number of its namespace.
fn prefixed(alloc: Global, number: u64, name: &Name) -> Result<Text, NoMemory>
    ensures { IfOk result (λ made. made ≡ the_prefixed number name.now) }
{
    let mut made = prefix_for(alloc, number, name.ns.as_str())?;
    made.push_str(":")?;
    made.push_str(name.local.as_str())?;
    Ok(made)
}

// The words of `except`: namespaces and then names.
fn except_words(alloc: Global, condition: &Condition) -> Result<Words, NoMemory>
    ensures { IfOk result (λ words. words ≡ the_except_words condition.now) }
{
    let mut words = condition.spaces.copy(alloc)?;
    let mut before = XML;
    let mut count = 0u64;
    for name in condition.names.as_slice() {
        let ns = name.ns.as_str();
        count = number_at(before, ns, count);
        words.push(prefixed(alloc, count, name)?)?;
        before = ns;
    }
    Ok(words)
}
