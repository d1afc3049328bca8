ghost use Rattle.std.specs.Prelude.{◌≡◌, ◌++◌, ◌<◌, ◌≤◌, IfOk, IfSome, length, take, true};
ghost use Rattle.std.specs.List.{list_all};
ghost use Rattle.odd_tokens.specs.Characters.{is_space as a_space};
ghost use Rattle.odd_reader.specs.Tagging.{AreAttributesFirst, ArePiecesFirst, IsAttributeFirst, IsNamed, IsPlainName, IsQuoted, IsSpaced, IsTokenFirst, IsValued, begins_plain as could_begin_plain, is_plain_byte_in as a_plain_byte_in, is_plain_part as a_plain_part};

use crate::names::NameTable;
use crate::references::after_reference;
use odd_text::{NoMemory, Text};
use odd_tokens::{Token, WrittenAttr, WrittenAttrs, WrittenName, WrittenTag};
use std::alloc::Global;

fn begins_plain(b: u8) -> bool
    ensures { result ≡ could_begin_plain b }
{
    matches!(b, b'A'..=b'Z' | b'_' | b'a'..=b'z')
}

fn is_plain_part(b: u8) -> bool
    ensures { result ≡ a_plain_part b }
{
    matches!(b, b'A'..=b'Z' | b'_' | b'a'..=b'z' | b'-' | b'.' | b'0'..=b'9')
}

/// Whether a byte is white space.
pub fn is_space_byte(b: u8) -> bool
    ensures { result ≡ a_space b }
{
    matches!(b, b' ' | b'\t' | b'\r' | b'\n')
}

// Whether a byte belongs to a character that is read as itself in a value. Two characters that are none of XML begin with 0xEF.
fn is_plain_byte_in(quote: u8, b: u8) -> bool
    ensures { result ≡ a_plain_byte_in quote b }
{
    match b {
        b'&' | b'<' | 0xEF => false,
        _ => b >= b' ' && b != quote,
    }
}

// How many bytes of a name stand first.
fn name_length(bytes: &[u8]) -> usize
    ensures within { result ≤ length bytes.now }
    ensures plain { list_all a_plain_part (take result bytes.now) ≡ true }
{
    let mut at = 0;
    'naming: while at < bytes.len() && is_plain_part(bytes[at]) {
        at += 1;
    }
    at
}

// How many bytes of white space stand first.
fn space_length(bytes: &[u8]) -> usize
    ensures within { result ≤ length bytes.now }
    ensures white { list_all a_space (take result bytes.now) ≡ true }
{
    let mut at = 0;
    'spacing: while at < bytes.len() && is_space_byte(bytes[at]) {
        at += 1;
    }
    at
}

// How many bytes of a value stand first.
fn value_length(quote: u8, bytes: &[u8]) -> usize
    ensures within { result ≤ length bytes.now }
    ensures plain { list_all (a_plain_byte_in quote) (take result bytes.now) ≡ true }
{
    let mut at = 0;
    'reading: while at < bytes.len() && is_plain_byte_in(quote, bytes[at]) {
        at += 1;
    }
    at
}

/// A name of ASCII without a colon that stands first, and what follows.
pub fn part(text: &str) -> Option<(&str, &str)>
    ensures parts { IfSome result (λ p. text.now ≡ p.0.now ++ p.1.now) }
    ensures name { IfSome result (λ p. IsPlainName p.0.now) }
{
    let bytes = text.as_bytes();
    let length = name_length(bytes);
    if length == 0 || !begins_plain(bytes[0]) {
        return None;
    }
    let Some((name, rest)) = text.split_at_checked(length) else {
        return None;
    };
    Some((name, rest))
}

// The prefix and the local part of a name of ASCII that stands first, and what follows.
fn name(text: &str) -> Option<(&str, &str, &str)>
    ensures { IfSome result (λ p. IsNamed text.now p.0.now p.1.now p.2.now) }
{
    let Some((first, rest)) = part(text) else {
        return None;
    };
    let Some(second) = rest.strip_prefix(':') else {
        return Some(("", first, rest));
    };
    let Some((local, left)) = part(second) else {
        return None;
    };
    Some((first, local, left))
}

// What follows the white space that stands first.
fn after_space(text: &str) -> &str
    ensures { IsSpaced text.now result.now }
{
    match text.split_at_checked(space_length(text.as_bytes())) {
        Some((_, rest)) => rest,
        None => text,
    }
}

// The characters of a value that stand first and are read as themselves, and what follows.
fn run_in(quote: char, text: &str) -> Option<(&str, &str)>
    requires { quote < 128 }
    ensures { IfSome result (λ p. ArePiecesFirst quote text.now p.0.now p.1.now) }
{
    let Some((run, rest)) = text.split_at_checked(value_length(quote as u8, text.as_bytes())) else {
        return None;
    };
    Some((run, rest))
}

// A value that stands first with the quote after it, and what follows.
fn value_until(alloc: Global, quote: char, text: &str) -> Result<Option<(Text, &str)>, NoMemory>
    requires { quote < 128 }
    ensures { IfOk result (λ o. IfSome o (λ p. IsValued quote text.now p.0 p.1.now)) }
{
    let Some((run, ended)) = run_in(quote, text) else {
        return Ok(None);
    };
    if let Some(rest) = ended.strip_prefix(quote) {
        return Ok(Some((Text::from_str(alloc, run)?, rest)));
    }
    let mut value = String::from_str(alloc, run)?;
    let mut rest = ended;
    'reading: while let Some((c, referred)) = after_reference(rest) {
        let Some((run, left)) = run_in(quote, referred) else {
            return Ok(None);
        };
        value.push(c)?;
        value.push_str(run)?;
        rest = left;
    }
    match rest.strip_prefix(quote) {
        Some(left) => Ok(Some((Text::from_string(alloc, value)?, left))),
        None => Ok(None),
    }
}

// A value in its quotes that stands first, and what follows.
fn quoted(alloc: Global, text: &str) -> Result<Option<(Text, &str)>, NoMemory>
    ensures { IfOk result (λ o. IfSome o (λ p. IsQuoted text.now p.0 p.1.now)) }
{
    if let Some(inner) = text.strip_prefix('"') {
        return value_until(alloc, '"', inner);
    }
    match text.strip_prefix('\'') {
        Some(inner) => value_until(alloc, '\'', inner),
        None => Ok(None),
    }
}

/// Reads tags at once, where they are simple.
#[derive(Drop)]
pub struct TagReader {
    alloc: Global,
    names: NameTable,
}

impl TagReader {
    pub fn new(alloc: Global) -> TagReader {
        TagReader {
            alloc,
            names: NameTable::new(alloc),
        }
    }

    fn written(&mut self, prefix: &str, local: &str) -> Result<WrittenName, NoMemory>
        ensures prefix { IfOk result (λ n. n.prefix ≡ prefix.now) }
        ensures local { IfOk result (λ n. n.local ≡ local.now) }
    {
        let prefix = self.names.share(prefix)?;
        let local = self.names.share(local)?;
        Ok(WrittenName { prefix, local })
    }

    // An attribute that stands first, and what follows.
    fn attribute<'a>(&mut self, text: &'a str) -> Result<Option<(WrittenAttr, &'a str)>, NoMemory>
        ensures { IfOk result (λ o. IfSome o (λ p. IsAttributeFirst text.now p.0 p.1.now)) }
    {
        let begun = after_space(text);
        if begun.len() == text.len() {
            return Ok(None);
        }
        let Some((prefix, local, named)) = name(begun) else {
            return Ok(None);
        };
        let Some(equals) = after_space(named).strip_prefix('=') else {
            return Ok(None);
        };
        match quoted(self.alloc, after_space(equals)) {
            Ok(Some((value, rest))) => {
                let name = self.written(prefix, local)?;
                Ok(Some((WrittenAttr { name, value }, rest)))
            }
            Ok(None) => Ok(None),
            Err(NoMemory) => Err(NoMemory),
        }
    }

    // The attributes that stand first, as far as they are simple, and what follows.
    fn attributes<'a>(&mut self, text: &'a str) -> Result<(WrittenAttrs, &'a str), NoMemory>
        ensures { IfOk result (λ p. AreAttributesFirst text.now p.0 p.1.now) }
    {
        let mut attrs = WrittenAttrs::new(self.alloc);
        let mut rest = text;
        'attributes: loop {
            match self.attribute(rest) {
                Ok(Some((attr, left))) => {
                    attrs.push(attr)?;
                    rest = left;
                }
                Ok(None) => break,
                Err(NoMemory) => return Err(NoMemory),
            }
        }
        Ok((attrs, rest))
    }

    /// The token of a start tag or an empty tag that stands first, where it is simple, and what follows.
    pub fn tag<'a>(&mut self, at: u64, text: &'a str) -> Result<Option<(Token, &'a str)>, NoMemory>
        ensures { IfOk result (λ o. IfSome o (λ p. IsTokenFirst at text.now p.0 p.1.now)) }
    {
        let Some(begun) = text.strip_prefix('<') else {
            return Ok(None);
        };
        let Some((prefix, local, named)) = name(begun) else {
            return Ok(None);
        };
        let name = self.written(prefix, local)?;
        let (attrs, left) = match self.attributes(named) {
            Ok(parts) => parts,
            Err(NoMemory) => return Err(NoMemory),
        };
        let ended = after_space(left);
        let tag = WrittenTag { at, name, attrs };
        if let Some(rest) = ended.strip_prefix('>') {
            return Ok(Some((Token::Start(tag), rest)));
        }
        match ended.strip_prefix("/>") {
            Some(rest) => Ok(Some((Token::Empty(tag), rest))),
            None => Ok(None),
        }
    }
}
