ghost use Rattle.std.specs.Prelude.{◌≡◌, ◌≢◌, ◌↔◌, ℕ, ◌<◌, ◌≤◌, Bool, true, List, [], IsTrue, IfOk, IfErr, IfSome, IfNone, OnOk};
ghost use Rattle.odd_tokens.specs.Lexing.{Follows, base_of as a_base_of, before_equals as a_before_equals, before_quote as a_before_quote, between as a_between, cdata as a_cdata, cdata_letter as a_cdata_letter, cdata_open as a_cdata_open, cdata_text as a_cdata_text, entity_named, comment as a_comment, comment_dash as a_comment_dash, digit as a_digit, done as a_done, end_attribute as an_end_attribute, end_digits as an_end_digits, end_letters as an_end_letters, end_space as an_end_space, exclamation as an_exclamation, fresh_tag, go as a_go, instruction as an_instruction, less as a_less, letter as a_letter, lexed, name_begins as a_name_begins, name_goes_on as a_name_goes_on, named_in, next_in, no_name, question as a_question, reference as a_reference, referred as a_referred, slash as a_slash, tag_goes_on as a_tag_goes_on, tag_space as a_tag_space, target as a_target, target_question as a_target_question, value as a_value};
ghost use Rattle.odd_tokens.specs.Unfinished.{Ends, GoesOn, NoneBegins, Reads, With};
ghost use Rattle.odd_tokens.specs.declared.lexer.Fault.TheVariants as fault;

use crate::character::{is_char, is_space};
use crate::declaration::is_declaration;
use crate::names::{is_name_char, is_name_start};
use crate::table::TextTable;
use crate::token::{Token, WrittenAttr, WrittenAttrs, WrittenName, WrittenTag};
use odd_text::{NoMemory, Text};
use std::alloc::{AllocError, Global};
use std::mem;

// The number of the last character of Unicode.
const LAST_CHARACTER: u32 = 0x10FFFF;

/// Why a token does not go on with a character.
#[derive(Clone, Copy, Debug, PartialEq, Eq)]
pub enum Fault {
    /// No token begins with the characters.
    Malformed,
    NoMemory,
}

impl From<NoMemory> for Fault {
    ghost use Rattle.odd_tokens.specs.declared.lexer.Fault.TheVariants as fault;

    ghost from_gives = { λ _ error. error ≡ fault.NoMemory };

    fn from(_error: NoMemory) -> Fault {
        Fault::NoMemory
    }
}

impl From<AllocError> for Fault {
    ghost use Rattle.odd_tokens.specs.declared.lexer.Fault.TheVariants as fault;

    ghost from_gives = { λ _ error. error ≡ fault.NoMemory };

    fn from(_error: AllocError) -> Fault {
        Fault::NoMemory
    }
}

// Whose name is read.
#[derive(Clone, Copy, Debug, PartialEq, Eq)]
enum Named {
    Element,
    Attribute,
    EndTag,
}

// Which part of a name comes, or goes on.
#[derive(Clone, Copy, Debug, PartialEq, Eq)]
enum NamePart {
    Begins,
    First,
    LocalBegins,
    Local,
}

// Where a reference stands: in content, or in a value between quotes.
#[derive(Clone, Copy, Debug, PartialEq, Eq)]
enum Place {
    Content,
    Value(char),
}

// What was read of a reference: `&`, letters, `&#`, digits, `&#x`, hexadecimal digits.
#[derive(Clone, Copy, Debug, PartialEq, Eq)]
enum ReferencePart {
    Begins,
    Letters,
    Hash,
    Decimal,
    HexBegins,
    Hexadecimal,
}

// What was read of the token that is not finished.
#[derive(Clone, Copy, Debug, PartialEq, Eq)]
enum State {
    // nothing
    Between,
    // `<`
    Less,
    // `<!`
    Exclamation,
    // `<!-`
    CommentDash,
    // `<!--` and perhaps more; how many dashes stand last
    Comment(u8),
    // `<![` and the first letters of `CDATA[`
    CdataOpen(u8),
    // `<![CDATA[` and perhaps more; how many brackets stand last, and whether CR stands before them
    Cdata(u8, bool),
    // `<?` and the first letters of the target
    Target,
    // `<?` with the target and `?`
    TargetQuestion,
    // `<?` with the target and white space, and perhaps more; whether a question mark stands last
    Instruction(bool),
    // `?` at the end of the XML declaration
    Question,
    Name(Named, NamePart),
    // white space after the name of an element or after a value
    TagSpace,
    // white space after an attribute's name
    BeforeEquals,
    // the equals sign, and white space after it
    BeforeQuote,
    // a value in its quotes; whether CR stands last
    Value(char, bool),
    // a value with both quotes
    ValueEnd,
    // `/` at the end of a tag
    Slash,
    // white space after the name of an end tag
    EndSpace,
    Reference(Place, ReferencePart),
}

/// Makes tokens of characters, one character after another.
#[derive(Drop)]
pub struct Lexer {
    alloc: Global,
    state: State,
    // nothing but a byte order mark was read
    opening: bool,
    // the byte where the unfinished token begins, or the last one began
    begin: u64,
    // the token is the XML declaration, which is read like a tag
    declares: bool,
    tag: WrittenTag,
    // the name and the value that are read, in buffers that are used again
    name: WrittenName,
    value: String,
    names: TextTable,
    // the text of a CDATA section, the target of an instruction, the letters of a reference
    text: String,
    // the number of a reference
    number: u32,
}

type Taken = Result<Option<Token>, Fault>;

fn new_name(alloc: Global) -> WrittenName
    ensures { result ≡ no_name }
{
    WrittenName {
        prefix: Text::new(alloc),
        local: Text::new(alloc),
    }
}

fn new_tag(alloc: Global, at: u64) -> WrittenTag
    ensures { result ≡ fresh_tag at }
{
    WrittenTag {
        at,
        name: new_name(alloc),
        attrs: WrittenAttrs::new(alloc),
    }
}

// The character of a predefined entity.
fn entity(name: &str) -> Option<char>
    ensures { result ≡ entity_named name.now }
{
    match name {
        "lt" => Some('<'),
        "gt" => Some('>'),
        "amp" => Some('&'),
        "apos" => Some('\''),
        "quot" => Some('"'),
        _ => None,
    }
}

// The base in which the digits of a reference are written.
fn base_of(part: ReferencePart) -> u32
    ensures value { result ≡ a_base_of part }
    ensures within { (2 ≤ result) × (result ≤ 16) }
{
    match part {
        ReferencePart::Hexadecimal => 16,
        _ => 10,
    }
}

// The letter of `CDATA[` that comes after so many.
fn cdata_letter(letters: u8) -> char
    ensures { result ≡ a_cdata_letter letters }
{
    match letters {
        0 => 'C',
        1 => 'D',
        2 => 'A',
        3 => 'T',
        4 => 'A',
        _ => '[',
    }
}

impl Lexer {
    /// A lexer that stands at the beginning of a file.
    pub fn new(alloc: Global) -> Lexer
        ensures { (at : ℕ) → Reads result true at [] }
    {
        Lexer {
            alloc,
            state: State::Between,
            opening: true,
            begin: 0,
            declares: false,
            tag: new_tag(alloc, 0),
            name: new_name(alloc),
            value: String::new(alloc),
            names: TextTable::new(alloc),
            text: String::new(alloc),
            number: 0,
        }
    }

    /// Whether no token is unfinished.
    pub fn is_between(&self) -> bool
        ensures { (fresh : Bool) (at : ℕ) (read : List ℕ) → Reads self.now fresh at read → IsTrue result ↔ (read ≡ []) }
    {
        self.state == State::Between
    }

    /// The byte where the unfinished token begins, or the last one began.
    pub fn begin(&self) -> u64
        ensures { (fresh : Bool) (at : ℕ) (read : List ℕ) → Reads self.now fresh at read → read ≢ [] → result ≡ at }
    {
        self.begin
    }

    /// Takes the character that begins at a byte, and gives the token that it ends.
    pub fn take(&mut self, at: u64, c: char) -> Taken
        ensures unfinished { IfOk result (λ given. IfNone given (With self.old at c (GoesOn (Reads self.new)))) }
        ensures ended { IfOk result (λ given. IfSome given (λ made. With self.old at c (Ends (Reads self.new) made))) }
        ensures malformed { IfErr result (λ e. e ≡ fault.Malformed → With self.old at c NoneBegins) }
    {
        if !is_char(c) {
            return Err(Fault::Malformed);
        }
        self.take_legal(at, c)
    }

    // Takes a character of XML.
    fn take_legal(&mut self, at: u64, c: char) -> Taken
        ensures { Follows (next_in (lexed self.old).state (lexed self.old) at c) result (lexed self.new) }
    {
        if self.state == State::Between {
            self.begin = at;
        }
        match self.state {
            State::Between => self.between(at, c),
            State::Less => self.less(c),
            State::Exclamation => self.exclamation(c),
            State::CommentDash => self.comment_dash(c),
            State::Comment(dashes) => self.comment(dashes, c),
            State::CdataOpen(letters) => self.cdata_open(letters, c),
            State::Cdata(brackets, after_return) => self.cdata(brackets, after_return, c),
            State::Target => self.target(c),
            State::TargetQuestion => self.target_question(c),
            State::Instruction(question) => self.instruction(question, c),
            State::Question => self.question(c),
            State::Name(named, part) => self.name(named, part, c),
            State::TagSpace => self.tag_space(c),
            State::BeforeEquals => self.before_equals(c),
            State::BeforeQuote => self.before_quote(c),
            State::Value(quote, after_return) => self.value(quote, after_return, c),
            State::ValueEnd => self.tag_goes_on(c),
            State::Slash => self.slash(c),
            State::EndSpace => self.end_space(c),
            State::Reference(place, part) => self.reference(place, part, c),
        }
    }

    fn go(&mut self, state: State) -> Taken
        ensures { Follows (a_go state (lexed self.old)) result (lexed self.new) }
    {
        self.state = state;
        Ok(None)
    }

    fn done(&mut self, token: Token) -> Taken
        ensures { Follows (a_done token (lexed self.old)) result (lexed self.new) }
    {
        self.state = State::Between;
        Ok(Some(token))
    }

    fn between(&mut self, at: u64, c: char) -> Taken
        ensures { Follows (a_between (lexed self.old) at c) result (lexed self.new) }
    {
        if self.opening && at == 0 && c == '\u{FEFF}' {
            return Ok(None);
        }
        if c == '<' {
            return self.go(State::Less);
        }
        self.opening = false;
        if c == '&' {
            return self.go(State::Reference(Place::Content, ReferencePart::Begins));
        }
        Ok(Some(Token::Character(c)))
    }

    fn clear_name(&mut self)
        ensures { lexed self.new ≡ record (lexed self.old) { name = no_name } }
    {
        self.name.prefix.clear();
        self.name.local.clear();
    }

    // The name that was read, of which each part is kept once a file.
    fn take_name(&mut self) -> Result<WrittenName, NoMemory>
        ensures name { IfOk result (λ name. name ≡ (lexed self.old).name) }
        ensures cleared { OnOk result (lexed self.new ≡ record (lexed self.old) { name = no_name }) }
    {
        let prefix = self.names.share(&self.name.prefix)?;
        let local = self.names.share(&self.name.local)?;
        self.clear_name();
        Ok(WrittenName { prefix, local })
    }

    // After `<`.
    fn less(&mut self, c: char) -> Taken
        ensures { Follows (a_less (lexed self.old) c) result (lexed self.new) }
    {
        if c == '?' {
            self.text.clear();
            return self.go(State::Target);
        }
        self.opening = false;
        match c {
            '!' => self.go(State::Exclamation),
            '/' => {
                self.clear_name();
                self.go(State::Name(Named::EndTag, NamePart::Begins))
            }
            _ => {
                self.tag = new_tag(self.alloc, self.begin);
                self.clear_name();
                self.name_begins(Named::Element, NamePart::First, c)
            }
        }
    }

    // After `<!`.
    fn exclamation(&mut self, c: char) -> Taken
        ensures { Follows (an_exclamation (lexed self.old) c) result (lexed self.new) }
    {
        match c {
            '-' => self.go(State::CommentDash),
            '[' => self.go(State::CdataOpen(0)),
            _ => Err(Fault::Malformed),
        }
    }

    // After `<!-`.
    fn comment_dash(&mut self, c: char) -> Taken
        ensures { Follows (a_comment_dash (lexed self.old) c) result (lexed self.new) }
    {
        match c {
            '-' => self.go(State::Comment(0)),
            _ => Err(Fault::Malformed),
        }
    }

    // In a comment, of which so many dashes stand last.
    fn comment(&mut self, dashes: u8, c: char) -> Taken
        ensures { Follows (a_comment dashes (lexed self.old) c) result (lexed self.new) }
    {
        match (dashes, c) {
            (0, '-') => self.go(State::Comment(1)),
            (1, '-') => self.go(State::Comment(2)),
            (0 | 1, _) => self.go(State::Comment(0)),
            (_, '>') => self.done(Token::Passed),
            _ => Err(Fault::Malformed),
        }
    }

    // After `<![` and so many letters of `CDATA[`.
    fn cdata_open(&mut self, letters: u8, c: char) -> Taken
        ensures { Follows (a_cdata_open letters (lexed self.old) c) result (lexed self.new) }
    {
        if c != cdata_letter(letters) {
            return Err(Fault::Malformed);
        }
        if letters < 5 {
            return self.go(State::CdataOpen(letters + 1));
        }
        self.text.clear();
        self.go(State::Cdata(0, false))
    }

    // In a CDATA section, of which so many brackets stand last.
    fn cdata(&mut self, brackets: u8, after_return: bool, c: char) -> Taken
        ensures { Follows (a_cdata brackets after_return (lexed self.old) c) result (lexed self.new) }
    {
        match (brackets, c) {
            (0 | 1, ']') => self.go(State::Cdata(brackets + 1, false)),
            (_, ']') => {
                self.text.push(']')?;
                Ok(None)
            }
            (2, '>') => {
                let text = Text::from_str(self.alloc, self.text.as_str())?;
                self.text.clear();
                self.done(Token::Cdata(text))
            }
            _ => self.cdata_text(brackets, after_return, c),
        }
    }

    // A character of the text of a CDATA section, after brackets that belong to it.
    fn cdata_text(&mut self, brackets: u8, after_return: bool, c: char) -> Taken
        ensures { Follows (a_cdata_text brackets after_return (lexed self.old) c) result (lexed self.new) }
    {
        match brackets {
            0 => {}
            1 => self.text.push(']')?,
            _ => self.text.push_str("]]")?,
        }
        match c {
            '\n' if after_return => {}
            '\r' => self.text.push('\n')?,
            _ => self.text.push(c)?,
        }
        self.go(State::Cdata(0, c == '\r'))
    }

    // After `<?` and the first letters of the target.
    fn target(&mut self, c: char) -> Taken
        ensures { Follows (a_target (lexed self.old) c) result (lexed self.new) }
    {
        let is_first = self.text.as_str().is_empty();
        if (is_first && is_name_start(c)) || (!is_first && is_name_char(c)) {
            self.text.push(c)?;
            return Ok(None);
        }
        if is_first || !(c == '?' || is_space(c)) {
            return Err(Fault::Malformed);
        }
        let opening = mem::replace(&mut self.opening, false);
        if opening && c != '?' && self.text.as_str() == "xml" {
            self.declares = true;
            self.tag = new_tag(self.alloc, self.begin);
            return self.go(State::TagSpace);
        }
        if self.text.as_str().eq_ignore_ascii_case("xml") {
            return Err(Fault::Malformed);
        }
        self.go(if c == '?' {
            State::TargetQuestion
        } else {
            State::Instruction(false)
        })
    }

    // After the target of a processing instruction and `?`.
    fn target_question(&mut self, c: char) -> Taken
        ensures { Follows (a_target_question (lexed self.old) c) result (lexed self.new) }
    {
        if c != '>' {
            return Err(Fault::Malformed);
        }
        self.done(Token::Passed)
    }

    // In a processing instruction, after its target and white space.
    fn instruction(&mut self, question: bool, c: char) -> Taken
        ensures { Follows (an_instruction question (lexed self.old) c) result (lexed self.new) }
    {
        if question && c == '>' {
            return self.done(Token::Passed);
        }
        self.go(State::Instruction(c == '?'))
    }

    // After `?` at the end of the XML declaration.
    fn question(&mut self, c: char) -> Taken
        ensures { Follows (a_question (lexed self.old) c) result (lexed self.new) }
    {
        if c != '>' || !is_declaration(&self.tag.attrs) {
            return Err(Fault::Malformed);
        }
        self.declares = false;
        self.done(Token::Passed)
    }

    // A character of a name, or the first one after it.
    fn name(&mut self, named: Named, part: NamePart, c: char) -> Taken
        ensures { Follows (named_in named part (lexed self.old) c) result (lexed self.new) }
    {
        match part {
            NamePart::Begins => self.name_begins(named, NamePart::First, c),
            NamePart::LocalBegins => self.name_begins(named, NamePart::Local, c),
            NamePart::First if c == ':' => {
                mem::swap(&mut self.name.prefix, &mut self.name.local);
                self.name.local.clear();
                self.go(State::Name(named, NamePart::LocalBegins))
            }
            NamePart::First | NamePart::Local => self.name_goes_on(named, c),
        }
    }

    fn name_begins(&mut self, named: Named, then: NamePart, c: char) -> Taken
        ensures { Follows (a_name_begins named then (lexed self.old) c) result (lexed self.new) }
    {
        if !is_name_start(c) {
            return Err(Fault::Malformed);
        }
        self.name.local.push(c)?;
        self.go(State::Name(named, then))
    }

    fn name_goes_on(&mut self, named: Named, c: char) -> Taken
        ensures { Follows (a_name_goes_on named (lexed self.old) c) result (lexed self.new) }
    {
        if is_name_char(c) {
            self.name.local.push(c)?;
            return Ok(None);
        }
        match named {
            Named::Element => {
                self.tag.name = self.take_name()?;
                self.tag_goes_on(c)
            }
            Named::Attribute => self.before_equals(c),
            Named::EndTag => self.end_space(c),
        }
    }

    // After the name of an element, after white space, or after an attribute.
    fn tag_goes_on(&mut self, c: char) -> Taken
        ensures { Follows (a_tag_goes_on (lexed self.old) c) result (lexed self.new) }
    {
        match c {
            '?' if self.declares => self.go(State::Question),
            '/' if !self.declares => self.go(State::Slash),
            '>' if !self.declares => {
                let tag = mem::replace(&mut self.tag, new_tag(self.alloc, 0));
                self.done(Token::Start(tag))
            }
            _ if is_space(c) => self.go(State::TagSpace),
            _ => Err(Fault::Malformed),
        }
    }

    // After white space in a tag, where an attribute may begin.
    fn tag_space(&mut self, c: char) -> Taken
        ensures { Follows (a_tag_space (lexed self.old) c) result (lexed self.new) }
    {
        if !is_name_start(c) {
            return self.tag_goes_on(c);
        }
        self.clear_name();
        self.name_begins(Named::Attribute, NamePart::First, c)
    }

    // After the name of an attribute.
    fn before_equals(&mut self, c: char) -> Taken
        ensures { Follows (a_before_equals (lexed self.old) c) result (lexed self.new) }
    {
        match c {
            '=' => self.go(State::BeforeQuote),
            _ if is_space(c) => self.go(State::BeforeEquals),
            _ => Err(Fault::Malformed),
        }
    }

    // After the equals sign.
    fn before_quote(&mut self, c: char) -> Taken
        ensures { Follows (a_before_quote (lexed self.old) c) result (lexed self.new) }
    {
        match c {
            '"' | '\'' => {
                self.value.clear();
                self.go(State::Value(c, false))
            }
            _ if is_space(c) => self.go(State::BeforeQuote),
            _ => Err(Fault::Malformed),
        }
    }

    // In a value. White space that stands as itself is a space, and CR LF is one.
    fn value(&mut self, quote: char, after_return: bool, c: char) -> Taken
        ensures { Follows (a_value quote after_return (lexed self.old) c) result (lexed self.new) }
    {
        if c == quote {
            return self.end_attribute();
        }
        match c {
            '<' => return Err(Fault::Malformed),
            '&' if self.declares => return Err(Fault::Malformed),
            '&' => return self.go(State::Reference(Place::Value(quote), ReferencePart::Begins)),
            '\n' if after_return => {}
            _ if is_space(c) => self.value.push(' ')?,
            _ => self.value.push(c)?,
        }
        self.go(State::Value(quote, c == '\r'))
    }

    fn end_attribute(&mut self) -> Taken
        ensures { Follows (an_end_attribute (lexed self.old)) result (lexed self.new) }
    {
        let name = self.take_name()?;
        let value = Text::from_str(self.alloc, self.value.as_str())?;
        self.value.clear();
        self.tag.attrs.push(WrittenAttr { name, value })?;
        self.go(State::ValueEnd)
    }

    // After `/` at the end of a tag.
    fn slash(&mut self, c: char) -> Taken
        ensures { Follows (a_slash (lexed self.old) c) result (lexed self.new) }
    {
        if c != '>' {
            return Err(Fault::Malformed);
        }
        let tag = mem::replace(&mut self.tag, new_tag(self.alloc, 0));
        self.done(Token::Empty(tag))
    }

    // After the name of an end tag.
    fn end_space(&mut self, c: char) -> Taken
        ensures { Follows (an_end_space (lexed self.old) c) result (lexed self.new) }
    {
        if is_space(c) {
            return self.go(State::EndSpace);
        }
        if c != '>' {
            return Err(Fault::Malformed);
        }
        let name = self.take_name()?;
        self.done(Token::End(name))
    }

    fn reference(&mut self, place: Place, part: ReferencePart, c: char) -> Taken
        ensures { Follows (a_reference place part (lexed self.old) c) result (lexed self.new) }
    {
        match part {
            ReferencePart::Begins if c == '#' => self.go(State::Reference(
                place,
                ReferencePart::Hash,
            )),
            ReferencePart::Begins => {
                self.text.clear();
                self.letter(place, c)
            }
            ReferencePart::Letters if c == ';' => self.end_letters(place),
            ReferencePart::Letters => self.letter(place, c),
            ReferencePart::Hash if c == 'x' => self.go(State::Reference(
                place,
                ReferencePart::HexBegins,
            )),
            ReferencePart::Hash => self.first_digit(place, ReferencePart::Decimal, c),
            ReferencePart::HexBegins => self.first_digit(place, ReferencePart::Hexadecimal, c),
            ReferencePart::Decimal | ReferencePart::Hexadecimal if c == ';' => self.end_digits(
                place,
            ),
            ReferencePart::Decimal | ReferencePart::Hexadecimal => self.digit(place, part, c),
        }
    }

    // A letter of a predefined entity's name, of which none has more than four.
    fn letter(&mut self, place: Place, c: char) -> Taken
        ensures { Follows (a_letter place (lexed self.old) c) result (lexed self.new) }
    {
        if !c.is_ascii_lowercase() || self.text.as_str().len() >= 4 {
            return Err(Fault::Malformed);
        }
        self.text.push(c)?;
        self.go(State::Reference(place, ReferencePart::Letters))
    }

    fn end_letters(&mut self, place: Place) -> Taken
        ensures { Follows (an_end_letters place (lexed self.old)) result (lexed self.new) }
    {
        match entity(self.text.as_str()) {
            Some(character) => self.referred(place, character),
            None => Err(Fault::Malformed),
        }
    }

    fn first_digit(&mut self, place: Place, part: ReferencePart, c: char) -> Taken
        ensures { Follows (a_digit place part (record (lexed self.old) { number = 0 }) c) result (lexed self.new) }
    {
        self.number = 0;
        self.digit(place, part, c)
    }

    fn digit(&mut self, place: Place, part: ReferencePart, c: char) -> Taken
        ensures { Follows (a_digit place part (lexed self.old) c) result (lexed self.new) }
    {
        let base = base_of(part);
        let Some(digit) = c.to_digit(base) else {
            return Err(Fault::Malformed);
        };
        // a number past all characters stays as it is
        if self.number <= LAST_CHARACTER {
            self.number = self.number * base + digit;
        }
        self.go(State::Reference(place, part))
    }

    fn end_digits(&mut self, place: Place) -> Taken
        ensures { Follows (an_end_digits place (lexed self.old)) result (lexed self.new) }
    {
        let Some(character) = char::from_u32(self.number) else {
            return Err(Fault::Malformed);
        };
        if !is_char(character) {
            return Err(Fault::Malformed);
        }
        self.referred(place, character)
    }

    // The character that a reference stands for.
    fn referred(&mut self, place: Place, character: char) -> Taken
        ensures { Follows (a_referred place character (lexed self.old)) result (lexed self.new) }
    {
        match place {
            Place::Content => self.done(Token::Referred(character)),
            Place::Value(quote) => {
                self.value.push(character)?;
                self.go(State::Value(quote, false))
            }
        }
    }
}
