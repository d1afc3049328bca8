ghost use Rattle.std.specs.Prelude.{◌≡◌, ◌∷◌, ◌++◌, [], false, IfOk};
ghost use Rattle.rng_dialect.specs.Class.{is_escaped as an_escaped, is_plain_member as a_plain_member};
ghost use Rattle.rng_dialect.specs.ClassReading.{begins_member as member_step, class_step, first_step, member_begun as a_member_begun, more, new_class};

use crate::regex::{Member, Members};
use odd_text::{NoMemory, Seq};
use std::alloc::Global;

// The greatest character that may stand behind a `\`.
const LAST_ESCAPED: char = '}';

/// Whether the character may stand behind a `\`, where it stands for itself.
pub fn is_escaped(c: char) -> bool
    ensures { result ≡ an_escaped c }
{
    matches!(
        c,
        '.' | '\\' | '?' | '*' | '+' | '{' | '}' | '(' | ')' | '[' | ']' | '|' | '-' | '^'
    )
}

/// Whether the character stands for itself in a class.
pub fn is_plain_member(c: char) -> bool
    ensures { result ≡ a_plain_member c }
{
    !matches!(c, '[' | ']' | '\\' | '-')
}

/// Where the reader of a class stands.
#[derive(Clone, Copy, Debug, PartialEq, Eq)]
pub enum ClassPlace {
    /// Right behind the `[`.
    Sign,
    /// Behind the sign of the complement.
    First,
    /// Behind a character that may begin a range.
    Single(char),
    /// Behind such a character and a `-`.
    Hyphen(char),
    /// Behind a range, or a `-` that is the first member.
    Between,
    /// Behind a `-` that has to be the last member.
    LastHyphen,
    /// Behind a `\` with which a member begins.
    Escape,
    /// Behind a `\` with which a range ends.
    EscapeTo(char),
}

/// What a character is in a class.
#[derive(Clone, Copy, Debug, PartialEq, Eq)]
pub enum ClassTaken {
    More,
    /// It closes the class.
    Whole,
    Misfit,
}

/// A class that is read one character after another.
#[derive(Drop)]
pub struct ClassReader {
    pub negated: bool,
    pub members: Members,
    pub place: ClassPlace,
}

/// The place behind the character, with which a member may begin.
fn member_begun(c: char) -> Option<ClassPlace>
    ensures { result ≡ a_member_begun false [] c }
{
    if is_plain_member(c) {
        Some(ClassPlace::Single(c))
    } else if c == '\\' {
        Some(ClassPlace::Escape)
    } else {
        None
    }
}

impl ClassReader {
    /// A reader that stands right behind the `[`.
    pub fn new(alloc: Global) -> ClassReader
        ensures { result ≡ new_class }
    {
        ClassReader {
            negated: false,
            members: Seq::new(alloc),
            place: ClassPlace::Sign,
        }
    }

    /// Reads one more character. Nothing is promised of a reader that has met `NoMemory`.
    pub fn take(&mut self, c: char) -> Result<ClassTaken, NoMemory>
        ensures taken { IfOk result (λ t. (t, self.new) ≡ class_step self.old c) }
    {
        match self.place {
            ClassPlace::Sign => self.sign(c),
            ClassPlace::First => self.first(c),
            ClassPlace::Single(d) => self.behind_single(d, c),
            ClassPlace::Hyphen(low) => self.behind_hyphen(low, c),
            ClassPlace::Between => self.between(c),
            ClassPlace::LastHyphen if c == ']' => Ok(ClassTaken::Whole),
            ClassPlace::LastHyphen => Ok(ClassTaken::Misfit),
            ClassPlace::Escape => Ok(self.escaped(c)),
            ClassPlace::EscapeTo(low) => self.escaped_to(low, c),
        }
    }

    // Goes on to a place.
    fn go(&mut self, place: ClassPlace) -> ClassTaken
        ensures { (result, self.new) ≡ more self.old.negated self.old.members place }
    {
        self.place = place;
        ClassTaken::More
    }

    // Goes on behind one more member.
    fn push(&mut self, member: Member, place: ClassPlace) -> Result<ClassTaken, NoMemory>
        ensures { IfOk result (λ t. (t, self.new) ≡ more self.old.negated (self.old.members ++ member ∷ []) place) }
    {
        self.members.push(member)?;
        Ok(self.go(place))
    }

    // Goes on behind the first character of a member.
    fn begins_member(&mut self, c: char) -> ClassTaken
        ensures { (result, self.new) ≡ member_step self.old self.old.negated self.old.members c }
    {
        match member_begun(c) {
            Some(place) => self.go(place),
            None => ClassTaken::Misfit,
        }
    }

    // The sign of the complement, or the first member.
    fn sign(&mut self, c: char) -> Result<ClassTaken, NoMemory>
        requires { self.old.place ≡ ClassPlace.Sign }
        ensures { IfOk result (λ t. (t, self.new) ≡ class_step self.old c) }
    {
        if c == '^' {
            self.negated = true;
            return Ok(self.go(ClassPlace::First));
        }
        self.first(c)
    }

    // The first member, which may be a `-`.
    fn first(&mut self, c: char) -> Result<ClassTaken, NoMemory>
        ensures { IfOk result (λ t. (t, self.new) ≡ first_step self.old self.old.negated self.old.members c) }
    {
        if c == '-' {
            self.push(Member::Char('-'), ClassPlace::Between)
        } else {
            Ok(self.begins_member(c))
        }
    }

    // The character that was read is a member, unless a `-` follows it.
    fn behind_single(&mut self, d: char, c: char) -> Result<ClassTaken, NoMemory>
        requires { self.old.place ≡ ClassPlace.Single d }
        ensures { IfOk result (λ t. (t, self.new) ≡ class_step self.old c) }
    {
        if c == ']' {
            self.members.push(Member::Char(d))?;
            return Ok(ClassTaken::Whole);
        }
        if c == '-' {
            return Ok(self.go(ClassPlace::Hyphen(d)));
        }
        match member_begun(c) {
            Some(place) => self.push(Member::Char(d), place),
            None => Ok(ClassTaken::Misfit),
        }
    }

    // The end of a range, or of the class.
    fn behind_hyphen(&mut self, low: char, c: char) -> Result<ClassTaken, NoMemory>
        requires { self.old.place ≡ ClassPlace.Hyphen low }
        ensures { IfOk result (λ t. (t, self.new) ≡ class_step self.old c) }
    {
        if c == ']' {
            self.members.push(Member::Char(low))?;
            self.members.push(Member::Char('-'))?;
            return Ok(ClassTaken::Whole);
        }
        if is_plain_member(c) && low <= c {
            return self.push(Member::Range { low, high: c }, ClassPlace::Between);
        }
        Ok(if c == '\\' && low <= LAST_ESCAPED {
            self.go(ClassPlace::EscapeTo(low))
        } else {
            ClassTaken::Misfit
        })
    }

    // One more member, a `-` before the end, or the end.
    fn between(&mut self, c: char) -> Result<ClassTaken, NoMemory>
        requires { self.old.place ≡ ClassPlace.Between }
        ensures { IfOk result (λ t. (t, self.new) ≡ class_step self.old c) }
    {
        match c {
            ']' => Ok(ClassTaken::Whole),
            '-' => self.push(Member::Char('-'), ClassPlace::LastHyphen),
            _ => Ok(self.begins_member(c)),
        }
    }

    // A character behind a `\` with which a member begins.
    fn escaped(&mut self, c: char) -> ClassTaken
        requires { self.old.place ≡ ClassPlace.Escape }
        ensures { (result, self.new) ≡ class_step self.old c }
    {
        if is_escaped(c) {
            self.go(ClassPlace::Single(c))
        } else {
            ClassTaken::Misfit
        }
    }

    // A character behind a `\` with which a range ends.
    fn escaped_to(&mut self, low: char, c: char) -> Result<ClassTaken, NoMemory>
        requires { self.old.place ≡ ClassPlace.EscapeTo low }
        ensures { IfOk result (λ t. (t, self.new) ≡ class_step self.old c) }
    {
        if is_escaped(c) && low <= c {
            self.push(Member::Range { low, high: c }, ClassPlace::Between)
        } else {
            Ok(ClassTaken::Misfit)
        }
    }
}
