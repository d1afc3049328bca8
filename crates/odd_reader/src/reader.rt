ghost use Rattle.std.specs.Prelude.{◌≡◌, ◌∷◌, ◌++◌, ◌<◌, length, ℕ, List, [], IfOk, IfErr, OnOk};
ghost use Rattle.std.specs.Str.{encode_utf8_all};
ghost use Rattle.odd_tokens.specs.Tokens.{size_of};
ghost use Rattle.odd_tree.specs.Formed.{IsFormed};
ghost use Rattle.odd_reader.specs.Reading.{HasRead, IsLongestFront, place_of, refusal_of_fault, refusal_of_misfit};
ghost use Rattle.odd_reader.specs.Stepping.{Advances, IsInside, Refuses};
ghost use Rattle.odd_tree.specs.Spelled.{DepthPlace, GivesTree, IsNotXml};

use crate::builder::Builder;
use crate::comments::after_comment;
use crate::instructions::after_instruction;
use crate::misfit::Misfit;
use crate::references::after_reference;
use crate::runs::plain_run;
use crate::sections::after_section;
use crate::simple_tags::TagReader;
use odd_text::NoMemory;
use odd_tokens::{Fault, Lexer};
use odd_tree::Tree;
use std::alloc::Global;
use std::str;

/// Why a file has no tree.
#[derive(Clone, Copy, Debug, PartialEq, Eq, thiserror::Error)]
pub enum ReadRefusal {
    /// The file is not XML of the profile: the byte where its first fault is.
    #[error("the file is not XML at byte {at}")]
    NotXml { at: u64 },
    /// The file has over 200 levels: the byte where the first tag begins that opens one too many.
    #[error("the file has a level too many at byte {at}")]
    TooDeep { at: u64 },
    #[error("there is no memory")]
    NoMemory,
}

// The refusal of a token that begins at a byte.
fn of_fault(fault: Fault, at: u64) -> ReadRefusal
    ensures { result ≡ refusal_of_fault at fault }
{
    match fault {
        Fault::Malformed => ReadRefusal::NotXml { at },
        Fault::NoMemory => ReadRefusal::NoMemory,
    }
}

fn of_misfit(misfit: Misfit, at: u64) -> ReadRefusal
    ensures { result ≡ refusal_of_misfit at misfit }
{
    match misfit {
        Misfit::Misplaced => ReadRefusal::NotXml { at },
        Misfit::TooDeep => ReadRefusal::TooDeep { at },
        Misfit::NoMemory => ReadRefusal::NoMemory,
    }
}

// Reads a file character by character, and what is simple at once.
#[derive(Drop)]
struct Reader {
    lexer: Lexer,
    builder: Builder,
}

impl Reader {
    fn new(alloc: Global) -> Result<Reader, NoMemory>
        ensures { IfOk result (λ made. HasRead made []) }
    {
        Ok(Reader {
            lexer: Lexer::new(alloc),
            builder: Builder::new(alloc)?,
        })
    }

    // The byte where the unfinished token begins; where none is unfinished, that of the next character.
    fn place(&self, next: u64) -> u64
        ensures { (cs : List ℕ) → next ≡ size_of cs → (h : HasRead self.now cs) → result ≡ place_of h }
    {
        if self.lexer.is_between() {
            next
        } else {
            self.lexer.begin()
        }
    }

    // Takes the character that begins at a byte. A refusal is of each file that begins with these characters.
    fn take(&mut self, at: u64, c: char) -> Result<(), ReadRefusal>
        ensures ok { OnOk result ((cs : List ℕ) → at ≡ size_of cs → HasRead self.old cs → HasRead self.new (cs ++ c ∷ [])) }
        ensures not_xml { IfErr result (λ e. (place : ℕ) → e ≡ ReadRefusal.NotXml place → (cs rest : List ℕ) → at ≡ size_of cs → HasRead self.old cs → IsNotXml (encode_utf8_all (cs ++ c ∷ []) ++ rest) place) }
        ensures too_deep { IfErr result (λ e. (place : ℕ) → e ≡ ReadRefusal.TooDeep place → (cs rest : List ℕ) → at ≡ size_of cs → HasRead self.old cs → DepthPlace (encode_utf8_all (cs ++ c ∷ []) ++ rest) place) }
    {
        let place = self.place(at);
        let token = match self.lexer.take(at, c) {
            Ok(Some(token)) => token,
            Ok(None) => return Ok(()),
            Err(fault) => return Err(of_fault(fault, place)),
        };
        match self.builder.take(token) {
            Ok(()) => Ok(()),
            Err(misfit) => Err(of_misfit(misfit, place)),
        }
    }

    // Takes the first character of the text, which begins at a byte, and gives what follows.
    fn character<'a>(&mut self, at: u64, text: &'a str) -> Result<&'a str, ReadRefusal>
        requires { 0 < length text.now }
        ensures ok { IfOk result (λ rest. Advances self.old self.new at text.now rest.now) }
        ensures not_xml { IfErr result (λ e. (place : ℕ) → e ≡ ReadRefusal.NotXml place → Refuses IsNotXml self.old at text.now place) }
        ensures too_deep { IfErr result (λ e. (place : ℕ) → e ≡ ReadRefusal.TooDeep place → Refuses DepthPlace self.old at text.now place) }
    {
        let mut chars = text.chars();
        let Some(c) = chars.next() else {
            return Ok(text);
        };
        match self.take(at, c) {
            Ok(()) => Ok(chars.as_str()),
            Err(refusal) => Err(refusal),
        }
    }

    // Takes the characters that stand first and are text, inside an element.
    fn text<'a>(&mut self, at: u64, text: &'a str) -> Result<&'a str, ReadRefusal>
        requires some { 0 < length text.now }
        requires inside { IsInside self.old }
        ensures ok { IfOk result (λ rest. Advances self.old self.new at text.now rest.now) }
        ensures not_xml { IfErr result (λ e. (place : ℕ) → e ≡ ReadRefusal.NotXml place → Refuses IsNotXml self.old at text.now place) }
        ensures too_deep { IfErr result (λ e. (place : ℕ) → e ≡ ReadRefusal.TooDeep place → Refuses DepthPlace self.old at text.now place) }
    {
        if !self.builder.takes_plain() {
            return self.reference(at, text);
        }
        let Some((front, rest)) = plain_run(text) else {
            return self.reference(at, text);
        };
        match self.builder.take_plain(front) {
            Ok(()) => Ok(rest),
            Err(NoMemory) => Err(ReadRefusal::NoMemory),
        }
    }

    // Takes the reference that stands first, inside an element, or a character.
    fn reference<'a>(&mut self, at: u64, text: &'a str) -> Result<&'a str, ReadRefusal>
        requires some { 0 < length text.now }
        requires inside { IsInside self.old }
        ensures ok { IfOk result (λ rest. Advances self.old self.new at text.now rest.now) }
        ensures not_xml { IfErr result (λ e. (place : ℕ) → e ≡ ReadRefusal.NotXml place → Refuses IsNotXml self.old at text.now place) }
        ensures too_deep { IfErr result (λ e. (place : ℕ) → e ≡ ReadRefusal.TooDeep place → Refuses DepthPlace self.old at text.now place) }
    {
        let Some((c, rest)) = after_reference(text) else {
            return self.character(at, text);
        };
        match self.builder.take_referred(c) {
            Ok(()) => Ok(rest),
            Err(NoMemory) => Err(ReadRefusal::NoMemory),
        }
    }

    // Takes the markup that stands first, inside an element.
    fn markup<'a>(
        &mut self,
        tags: &mut TagReader,
        at: u64,
        text: &'a str,
    ) -> Result<&'a str, ReadRefusal>
        requires some { 0 < length text.now }
        requires inside { IsInside self.old }
        ensures ok { IfOk result (λ rest. Advances self.old self.new at text.now rest.now) }
        ensures not_xml { IfErr result (λ e. (place : ℕ) → e ≡ ReadRefusal.NotXml place → Refuses IsNotXml self.old at text.now place) }
        ensures too_deep { IfErr result (λ e. (place : ℕ) → e ≡ ReadRefusal.TooDeep place → Refuses DepthPlace self.old at text.now place) }
    {
        let Some(rest) = self.builder.after_end(text) else {
            return self.tag(tags, at, text);
        };
        match self.builder.end_innermost() {
            Ok(()) => Ok(rest),
            Err(misfit) => Err(of_misfit(misfit, at)),
        }
    }

    // Takes the tag that stands first, inside an element, or other markup.
    fn tag<'a>(
        &mut self,
        tags: &mut TagReader,
        at: u64,
        text: &'a str,
    ) -> Result<&'a str, ReadRefusal>
        requires some { 0 < length text.now }
        requires inside { IsInside self.old }
        ensures ok { IfOk result (λ rest. Advances self.old self.new at text.now rest.now) }
        ensures not_xml { IfErr result (λ e. (place : ℕ) → e ≡ ReadRefusal.NotXml place → Refuses IsNotXml self.old at text.now place) }
        ensures too_deep { IfErr result (λ e. (place : ℕ) → e ≡ ReadRefusal.TooDeep place → Refuses DepthPlace self.old at text.now place) }
    {
        match tags.tag(at, text) {
            Ok(Some((token, rest))) => match self.builder.take(token) {
                Ok(()) => Ok(rest),
                Err(misfit) => Err(of_misfit(misfit, at)),
            },
            Ok(None) => self.comment(at, text),
            Err(NoMemory) => Err(ReadRefusal::NoMemory),
        }
    }

    // Takes the comment that stands first, inside an element, or other markup.
    fn comment<'a>(&mut self, at: u64, text: &'a str) -> Result<&'a str, ReadRefusal>
        requires some { 0 < length text.now }
        requires inside { IsInside self.old }
        ensures ok { IfOk result (λ rest. Advances self.old self.new at text.now rest.now) }
        ensures not_xml { IfErr result (λ e. (place : ℕ) → e ≡ ReadRefusal.NotXml place → Refuses IsNotXml self.old at text.now place) }
        ensures too_deep { IfErr result (λ e. (place : ℕ) → e ≡ ReadRefusal.TooDeep place → Refuses DepthPlace self.old at text.now place) }
    {
        let Some(rest) = after_comment(text) else {
            return self.instruction(at, text);
        };
        self.builder.pass();
        Ok(rest)
    }

    // Takes the processing instruction that stands first, inside an element, or other markup.
    fn instruction<'a>(&mut self, at: u64, text: &'a str) -> Result<&'a str, ReadRefusal>
        requires some { 0 < length text.now }
        requires inside { IsInside self.old }
        ensures ok { IfOk result (λ rest. Advances self.old self.new at text.now rest.now) }
        ensures not_xml { IfErr result (λ e. (place : ℕ) → e ≡ ReadRefusal.NotXml place → Refuses IsNotXml self.old at text.now place) }
        ensures too_deep { IfErr result (λ e. (place : ℕ) → e ≡ ReadRefusal.TooDeep place → Refuses DepthPlace self.old at text.now place) }
    {
        let Some(rest) = after_instruction(text) else {
            return self.section(at, text);
        };
        self.builder.pass();
        Ok(rest)
    }

    // Takes the CDATA section that stands first, inside an element, or a character.
    fn section<'a>(&mut self, at: u64, text: &'a str) -> Result<&'a str, ReadRefusal>
        requires some { 0 < length text.now }
        requires inside { IsInside self.old }
        ensures ok { IfOk result (λ rest. Advances self.old self.new at text.now rest.now) }
        ensures not_xml { IfErr result (λ e. (place : ℕ) → e ≡ ReadRefusal.NotXml place → Refuses IsNotXml self.old at text.now place) }
        ensures too_deep { IfErr result (λ e. (place : ℕ) → e ≡ ReadRefusal.TooDeep place → Refuses DepthPlace self.old at text.now place) }
    {
        let Some((inside, rest)) = after_section(text) else {
            return self.character(at, text);
        };
        match self.builder.take_section(inside) {
            Ok(()) => Ok(rest),
            Err(NoMemory) => Err(ReadRefusal::NoMemory),
        }
    }

    // Takes what stands first in the text, which begins at a byte, and gives what follows.
    fn step<'a>(
        &mut self,
        tags: &mut TagReader,
        at: u64,
        text: &'a str,
    ) -> Result<&'a str, ReadRefusal>
        requires { 0 < length text.now }
        ensures ok { IfOk result (λ rest. Advances self.old self.new at text.now rest.now) }
        ensures not_xml { IfErr result (λ e. (place : ℕ) → e ≡ ReadRefusal.NotXml place → Refuses IsNotXml self.old at text.now place) }
        ensures too_deep { IfErr result (λ e. (place : ℕ) → e ≡ ReadRefusal.TooDeep place → Refuses DepthPlace self.old at text.now place) }
    {
        if !self.lexer.is_between() || !self.builder.is_inside() {
            return self.character(at, text);
        }
        if text.as_bytes()[0] == b'<' {
            self.markup(tags, at, text)
        } else {
            self.text(at, text)
        }
    }

    // The tree, where no token and no element is unfinished at the end of the file.
    fn finish(self, end: u64) -> Result<Tree, ReadRefusal>
        ensures ok { IfOk result (λ tree. (cs : List ℕ) → HasRead self cs → GivesTree (encode_utf8_all cs) tree) }
        ensures err { IfErr result (λ e. (cs : List ℕ) → end ≡ size_of cs → HasRead self cs → (place : ℕ) × (e ≡ ReadRefusal.NotXml place) × IsNotXml (encode_utf8_all cs) place) }
    {
        let place = self.place(end);
        let Reader { lexer, builder } = self;
        if !lexer.is_between() {
            return Err(ReadRefusal::NotXml { at: place });
        }
        builder.finish().ok_or(ReadRefusal::NotXml { at: place })
    }
}

// The longest front of the bytes that is UTF-8.
fn longest_front(bytes: &[u8]) -> &str
    ensures { IsLongestFront bytes.now result.now }
{
    let error = match str::from_utf8(bytes) {
        Ok(text) => return text,
        Err(error) => error,
    };
    match str::from_utf8(&bytes[..error.valid_up_to()]) {
        Ok(front) => front,
        Err(_) => "",
    }
}

/// The tree of a file, from its bytes (XML 1.0 and Namespaces in XML 1.0, in the profile of docs/xml.md). A file that
/// is not XML of this profile is NotXml at its first fault: the byte where the first token begins that does not fit, or
/// the number of its bytes where it ends too early. A file with over 200 levels of elements is TooDeep at the tag that
/// opens the 201st, unless a fault stands before that. A tree that can't be kept for want of memory is NoMemory.
pub fn read_tree(alloc: Global, bytes: &[u8]) -> Result<Tree, ReadRefusal>
    ensures ok { IfOk result (GivesTree bytes.now) }
    ensures formed { IfOk result (IsFormed 0 (length bytes.now)) }
    ensures not_xml { IfErr result (λ e. (at : ℕ) → e ≡ ReadRefusal.NotXml at → IsNotXml bytes.now at) }
    ensures too_deep { IfErr result (λ e. (at : ℕ) → e ≡ ReadRefusal.TooDeep at → DepthPlace bytes.now at) }
{
    let front = longest_front(bytes);
    let mut reader = match Reader::new(alloc) {
        Ok(reader) => reader,
        Err(NoMemory) => return Err(ReadRefusal::NoMemory),
    };
    let mut tags = TagReader::new(alloc);
    let mut rest = front;
    'reading: while rest.len() > 0 {
        let at = (front.len() - rest.len()) as u64;
        rest = match reader.step(&mut tags, at, rest) {
            Ok(left) => left,
            Err(refusal) => return Err(refusal),
        };
    }
    let read = front.len() as u64;
    if front.len() < bytes.len() {
        return Err(ReadRefusal::NotXml {
            at: reader.place(read),
        });
    }
    reader.finish(read)
}
