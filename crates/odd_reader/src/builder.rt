ghost use Rattle.std.specs.Prelude.{◌≡◌, ◌++◌, None, Some, Ok, IfOk, IfSome, OnOk, length, nat_le, encode_utf8, string_bytes};
ghost use Rattle.odd_reader.specs.Building.{Follows, begun, build, character as a_character, character_text as text_of_character, element_closed, element_opened, ends_innermost as ends_the_innermost, inside as an_inside, is_root_closed as has_closed_root, kept_of, last_after as what_is_last_after, text_ended, then_closed, then_other};
ghost use Rattle.odd_reader.specs.Stepping.{EndsFirst, ended, some_open, takes_plain as can_take_plain, with_inside, with_plain};
ghost use Rattle.odd_tree.specs.Spelled.{deepest};

use crate::around::Around;
use crate::children::Children;
use crate::element::{OpenElement, add_child, tree_of};
use crate::ends::after_end;
use crate::misfit::Misfit;
use crate::names::NameTable;
use crate::twice::is_written_twice;
use crate::xml::XmlNamespace;
use odd_text::{NoMemory, Text};
use odd_tokens::{Token, WrittenName, WrittenTag, is_space};
use odd_tree::{Node, Tree};
use std::alloc::{AllocError, Global};

/// How many levels of elements a file may have.
pub const LEVELS: usize = 200;

// What stands last, as itself.
#[derive(Clone, Copy, Debug, PartialEq, Eq)]
enum Last {
    Other,
    Return,
    Bracket,
    Brackets,
}

/// Makes the tree of tokens, one token after another.
#[derive(Drop)]
pub struct Builder {
    alloc: Global,
    // the open elements, the outermost first
    open: Vec<OpenElement>,
    // what held the children of elements that are closed
    spare: Vec<Children>,
    root: Option<Tree>,
    // the text that is not finished, in a buffer that is used again
    text: String,
    last: Last,
    xml: XmlNamespace,
    // the texts of white space alone, of which there are many that are alike
    spaces: NameTable,
}

impl Builder {
    pub fn new(alloc: Global) -> Result<Builder, NoMemory>
        ensures { IfOk result (λ made. kept_of made ≡ begun) }
    {
        Ok(Builder {
            alloc,
            open: Vec::new(alloc),
            spare: Vec::new(alloc),
            root: None,
            text: String::new(alloc),
            last: Last::Other,
            xml: XmlNamespace::new(alloc)?,
            spaces: NameTable::new(alloc),
        })
    }

    /// Takes the token that comes next.
    pub fn take(&mut self, token: Token) -> Result<(), Misfit>
        ensures { Follows (build (kept_of self.old) token) result (kept_of self.new) }
    {
        match token {
            Token::Character(c) => self.character(c),
            Token::Passed => {
                self.last = Last::Other;
                Ok(())
            }
            Token::Referred(c) => self.referred(c),
            Token::Cdata(text) => self.cdata(&text),
            Token::Start(tag) => self.start(tag),
            Token::Empty(tag) => self.empty(tag),
            Token::End(name) => self.end(&name),
        }
    }

    /// Whether an element is open.
    pub fn is_inside(&self) -> bool
        ensures { result ≡ some_open (kept_of self.now).open_elements }
    {
        !self.open.is_empty()
    }

    /// Whether plain characters are text.
    pub fn takes_plain(&self) -> bool
        ensures { result ≡ can_take_plain (kept_of self.now) }
    {
        !self.open.is_empty() && matches!(self.last, Last::Other)
    }

    /// Takes a run of plain characters.
    pub fn take_plain(&mut self, run: &str) -> Result<(), NoMemory>
        ensures { OnOk result (kept_of self.new ≡ with_plain run.now (kept_of self.old)) }
    {
        self.text.push_str(run)?;
        Ok(())
    }

    /// Takes a character that is referred to, inside an element.
    pub fn take_referred(&mut self, c: char) -> Result<(), NoMemory>
        ensures { OnOk result (kept_of self.new ≡ with_inside (encode_utf8 c) (kept_of self.old)) }
    {
        self.text.push(c)?;
        self.last = Last::Other;
        Ok(())
    }

    /// Takes the text of a CDATA section, inside an element.
    pub fn take_section(&mut self, text: &str) -> Result<(), NoMemory>
        ensures { OnOk result (kept_of self.new ≡ with_inside text.now (kept_of self.old)) }
    {
        self.text.push_str(text)?;
        self.last = Last::Other;
        Ok(())
    }

    /// What follows an end tag of the innermost open element that stands first in a text.
    pub fn after_end<'a>(&self, text: &'a str) -> Option<&'a str>
        ensures { IfSome result (λ rest. EndsFirst (kept_of self.now).open_elements text.now rest.now) }
    {
        match self.open.last() {
            Some(innermost) => after_end(text, &innermost.written),
            None => None,
        }
    }

    /// Passes a comment or a processing instruction.
    pub fn pass(&mut self)
        ensures { build (kept_of self.old) Token.Passed ≡ Ok (kept_of self.new) }
    {
        self.last = Last::Other;
    }

    /// Takes an end tag of the innermost open element.
    pub fn end_innermost(&mut self) -> Result<(), Misfit>
        ensures { Follows (Ok (ended (kept_of self.old))) result (kept_of self.new) }
    {
        self.close_element()?;
        self.last = Last::Other;
        Ok(())
    }

    /// The tree, where the root is closed.
    pub fn finish(self) -> Option<Tree>
        ensures { result ≡ self.root }
    {
        let Builder {
            alloc: _,
            open: _,
            spare: _,
            root,
            text: _,
            last: _,
            xml: _,
            spaces: _,
        } = self;
        root
    }

    fn character(&mut self, c: char) -> Result<(), Misfit>
        ensures { Follows (a_character (kept_of self.old) c) result (kept_of self.new) }
    {
        if self.open.is_empty() {
            return if is_space(c) {
                Ok(())
            } else {
                Err(Misfit::Misplaced)
            };
        }
        if c == '>' && matches!(self.last, Last::Brackets) {
            return Err(Misfit::Misplaced);
        }
        push_character(&mut self.text, self.last, c)?;
        self.last = last_after(self.last, c);
        Ok(())
    }

    fn referred(&mut self, c: char) -> Result<(), Misfit>
        ensures { Follows (an_inside (encode_utf8 c) (kept_of self.old)) result (kept_of self.new) }
    {
        if self.open.is_empty() {
            return Err(Misfit::Misplaced);
        }
        self.text.push(c)?;
        self.last = Last::Other;
        Ok(())
    }

    fn cdata(&mut self, text: &Text) -> Result<(), Misfit>
        ensures { Follows (an_inside text.now (kept_of self.old)) result (kept_of self.new) }
    {
        if self.open.is_empty() {
            return Err(Misfit::Misplaced);
        }
        self.text.push_str(text.as_str())?;
        self.last = Last::Other;
        Ok(())
    }

    fn start(&mut self, tag: WrittenTag) -> Result<(), Misfit>
        ensures { Follows (then_other (element_opened (kept_of self.old) tag)) result (kept_of self.new) }
    {
        self.open_element(tag)?;
        self.last = Last::Other;
        Ok(())
    }

    fn empty(&mut self, tag: WrittenTag) -> Result<(), Misfit>
        ensures { Follows (then_other (then_closed (element_opened (kept_of self.old) tag))) result (kept_of self.new) }
    {
        self.open_element(tag)?;
        self.close_element()?;
        self.last = Last::Other;
        Ok(())
    }

    fn end(&mut self, name: &WrittenName) -> Result<(), Misfit>
        ensures { Follows (build (kept_of self.old) (Token.End name.now)) result (kept_of self.new) }
    {
        if !self.ends_innermost(name) {
            return Err(Misfit::Misplaced);
        }
        self.close_element()?;
        self.last = Last::Other;
        Ok(())
    }

    // Whether an end tag has the name of the innermost open element, as it was written.
    fn ends_innermost(&self, name: &WrittenName) -> bool
        ensures { result ≡ ends_the_innermost (kept_of self.now) name.now }
    {
        match self.open.last() {
            Some(innermost) => innermost.written == *name,
            None => false,
        }
    }

    // Puts the text that was read among the children of the innermost open element.
    fn end_text(&mut self) -> Result<(), Misfit>
        ensures { Follows (Ok (text_ended (kept_of self.old))) result (kept_of self.new) }
    {
        if self.text.is_empty() {
            return Ok(());
        }
        let text = self.finished_text()?;
        self.text.clear();
        add_child(&mut self.open, Node::Text(text))?;
        Ok(())
    }

    // The text that was read. One of white space alone is kept once a file.
    fn finished_text(&mut self) -> Result<Text, NoMemory>
        ensures text { IfOk result (λ text. text ≡ (kept_of self.old).text) }
        ensures same { kept_of self.new ≡ kept_of self.old }
    {
        if !self.text.chars().all(|c| is_space(c)) {
            return Text::from_str(self.alloc, self.text.as_str());
        }
        self.spaces.share(self.text.as_str())
    }

    fn open_element(&mut self, tag: WrittenTag) -> Result<(), Misfit>
        ensures { Follows (element_opened (kept_of self.old) tag) result (kept_of self.new) }
    {
        if self.is_root_closed() {
            return Err(Misfit::Misplaced);
        }
        if is_written_twice(self.alloc, &tag.attrs)? {
            return Err(Misfit::Misplaced);
        }
        let around = Around {
            alloc: self.alloc,
            open: self.open.as_slice(),
            xml: &self.xml,
        };
        let mut element = around.opened(tag)?;
        if self.is_deepest() {
            return Err(Misfit::TooDeep);
        }
        self.end_text()?;
        if let Some(mut children) = self.spare.pop() {
            children.clear();
            element.children = children;
        }
        self.open.push(element)?;
        Ok(())
    }

    fn is_root_closed(&self) -> bool
        ensures { result ≡ has_closed_root (kept_of self.now).open_elements self.now.root }
    {
        self.open.is_empty() && self.root.is_some()
    }

    // Whether no level is left.
    fn is_deepest(&self) -> bool
        ensures { result ≡ nat_le deepest (length (kept_of self.now).open_elements) }
    {
        self.open.len() >= LEVELS
    }

    // The innermost open element is a child of the one around it, or the root.
    fn close_element(&mut self) -> Result<(), Misfit>
        ensures { Follows (Ok (element_closed (kept_of self.old))) result (kept_of self.new) }
    {
        self.end_text()?;
        let Some(innermost) = self.open.pop() else {
            return Ok(());
        };
        let closed = tree_of(self.alloc, innermost, &mut self.spare)?;
        if self.open.is_empty() {
            self.root = Some(closed);
            return Ok(());
        }
        add_child(&mut self.open, Node::Element(closed))?;
        Ok(())
    }
}

// Puts what a character is read as at the end of a text: a line end is a line feed.
fn push_character(text: &mut String, last: Last, c: char) -> Result<(), AllocError>
    ensures { OnOk result (string_bytes text.new ≡ string_bytes text.old ++ text_of_character last c) }
{
    match c {
        '\r' => text.push('\n'),
        '\n' if matches!(last, Last::Return) => Ok(()),
        _ => text.push(c),
    }
}

fn last_after(last: Last, c: char) -> Last
    ensures { result ≡ what_is_last_after last c }
{
    match (c, last) {
        ('\r', _) => Last::Return,
        (']', Last::Bracket | Last::Brackets) => Last::Brackets,
        (']', _) => Last::Bracket,
        _ => Last::Other,
    }
}
