ghost use Rattle.std.specs.Prelude.{◌<◌, ◌+◌, ◌*◌, [], ◌∷◌, ℕ, List, Some, None, IfOk, OnOk, max};
ghost use Rattle.rng_dialect.specs.ClassReading.{class_step};
ghost use Rattle.rng_dialect.specs.Dialect.{between};
ghost use Rattle.rng_dialect.specs.Keeping.{Finishes, Keeps, KeepsEnd, KeepsPlace, Takes};
ghost use Rattle.rng_dialect.specs.Kept.{KeepsAtom, KeepsDigits, KeepsLevel};
ghost use Rattle.rng_dialect.specs.Reading.{AtomRead, LevelRead, Start, State, atom_read, behind_step, closed, ended, ended_at, in_class, least_step, most_step, new_level, new_state, start_step, state_at, step, step_at, with_piece};
ghost use Rattle.rng_dialect.specs.Reading as reading;

use crate::class::{ClassReader, ClassTaken, is_escaped};
use crate::digits::Digits;
use crate::level::{Level, ReadAtom};
use crate::limits::{size_times, sum_of_sizes};
use crate::regex::{Atom, Regex};
use odd_text::NoMemory;
use rng_types::Bounds;
use std::alloc::Global;
use std::mem;

/// Where the reader stands.
#[derive(Drop)]
pub enum Place {
    /// Where a piece may begin.
    Start,
    /// Behind an atom.
    Behind(ReadAtom),
    /// Behind a `\`.
    Escape,
    /// Behind a `{` and digits.
    Least(ReadAtom, Digits),
    /// Behind a `{`, a number, a `,` and digits.
    Most(ReadAtom, Digits, Digits),
    /// In a class.
    Class(ClassReader),
}

/// A pattern that is read one character after another.
#[derive(Drop)]
pub struct PatternReader {
    pub alloc: Global,
    /// The levels around, the innermost last.
    pub outer: Vec<Level>,
    pub level: Level,
    pub place: Place,
}

impl PatternReader {
    pub fn new(alloc: Global) -> PatternReader
        ensures { Keeps new_state result }
    {
        PatternReader {
            alloc,
            outer: Vec::new(alloc),
            level: Level::new(alloc),
            place: Place::Start,
        }
    }

    /// Takes the next character, and says whether it fits: whether some pattern begins with all characters so far. Where it
    /// does not, and after an error, nothing is said of the reader.
    pub fn take(&mut self, c: char) -> Result<bool, NoMemory>
        ensures { (s : State) → Keeps s self.old → IfOk result (λ fits. Takes (step s c) fits self.new) }
    {
        match mem::replace(&mut self.place, Place::Start) {
            Place::Start => self.start(c),
            Place::Behind(atom) => self.behind(atom, c),
            Place::Escape => Ok(self.escape(c)),
            Place::Least(atom, digits) => self.least(atom, digits, c),
            Place::Most(atom, least, digits) => self.most(atom, least, digits, c),
            Place::Class(class) => self.class(class, c),
        }
    }

    // Takes a character where a piece may begin.
    fn start(&mut self, c: char) -> Result<bool, NoMemory>
        ensures { (outer : List LevelRead) (l : LevelRead) → Keeps (state_at outer l Start) self.old → IfOk result (λ fits. Takes (start_step outer l c) fits self.new) }
    {
        match c {
            '\\' => self.place = Place::Escape,
            '.' => self.place = Place::Behind(one_character(Atom::Any)),
            '[' => self.place = Place::Class(ClassReader::new(self.alloc)),
            '(' => self.open()?,
            '|' => self.level.end_branch(self.alloc)?,
            ')' => return self.close(),
            '?' | '*' | '+' | '{' | '}' | ']' => return Ok(false),
            _ => self.place = Place::Behind(one_character(Atom::Char(c))),
        }
        Ok(true)
    }

    // Begins a level of parentheses.
    fn open(&mut self) -> Result<(), NoMemory>
        ensures { (outer : List LevelRead) (l : LevelRead) → Keeps (state_at outer l Start) self.old → OnOk result (Keeps (state_at (l ∷ outer) new_level Start) self.new) }
    {
        let outer = mem::replace(&mut self.level, Level::new(self.alloc));
        self.outer.push(outer)?;
        Ok(())
    }

    // Ends the innermost level of parentheses, where there is one.
    fn close(&mut self) -> Result<bool, NoMemory>
        ensures { (outer : List LevelRead) (l : LevelRead) → Keeps (state_at outer l Start) self.old → IfOk result (λ fits. Takes (closed outer l) fits self.new) }
    {
        let Some(outer) = self.outer.pop() else {
            return Ok(false);
        };
        let level = mem::replace(&mut self.level, outer);
        self.place = Place::Behind(level.into_atom(self.alloc)?);
        Ok(true)
    }

    // Takes a character behind an atom.
    fn behind(&mut self, atom: ReadAtom, c: char) -> Result<bool, NoMemory>
        ensures { (outer : List LevelRead) (l : LevelRead) → Keeps (state_at outer l Start) self.old → (a : AtomRead) → KeepsAtom a atom → IfOk result (λ fits. Takes (behind_step outer l a c) fits self.new) }
    {
        let bounds = match c {
            '{' => {
                self.place = Place::Least(atom, Digits::NONE);
                return Ok(true);
            }
            '?' => Bounds {
                min: 0,
                max: Some(1),
            },
            '*' => Bounds { min: 0, max: None },
            '+' => Bounds { min: 1, max: None },
            _ => {
                self.level.add_once(atom)?;
                return self.start(c);
            }
        };
        let size = sum_of_sizes(atom.size, 1);
        self.level.add_piece(atom, bounds, size)?;
        Ok(true)
    }

    // Takes the character behind a `\`.
    fn escape(&mut self, c: char) -> bool
        ensures { (outer : List LevelRead) (l : LevelRead) → Keeps (state_at outer l Start) self.old → Takes (step_at outer l reading.Escape c) result self.new }
    {
        if !is_escaped(c) {
            return false;
        }
        self.place = Place::Behind(one_character(Atom::Char(c)));
        true
    }

    // Takes a character behind a `{` and digits.
    fn least(&mut self, atom: ReadAtom, digits: Digits, c: char) -> Result<bool, NoMemory>
        ensures { (outer : List LevelRead) (l : LevelRead) → Keeps (state_at outer l Start) self.old → (a : AtomRead) (ds : List ℕ) → KeepsAtom a atom → KeepsDigits ds digits
            → IfOk result (λ fits. Takes (least_step outer l a ds c) fits self.new) }
    {
        if c.is_ascii_digit() && digits.has_room() {
            self.place = Place::Least(atom, digits.with(c));
            return Ok(true);
        }
        if digits.count == 0 {
            return Ok(false);
        }
        match c {
            ',' => self.place = Place::Most(atom, digits, Digits::NONE),
            '}' => self.add_times(atom, digits.value, digits.value)?,
            _ => return Ok(false),
        }
        Ok(true)
    }

    // Takes a character behind a `{`, a number, a `,` and digits.
    fn most(
        &mut self,
        atom: ReadAtom,
        least: Digits,
        digits: Digits,
        c: char,
    ) -> Result<bool, NoMemory>
        ensures { (outer : List LevelRead) (l : LevelRead) → Keeps (state_at outer l Start) self.old → (a : AtomRead) (ds : List ℕ) → KeepsAtom a atom → KeepsDigits ds digits
            → IfOk result (λ fits. Takes (most_step outer l a least.value ds c) fits self.new) }
    {
        if c.is_ascii_digit() && digits.has_room() {
            let digits = digits.with(c);
            let fits = digits.may_reach(least.value);
            self.place = Place::Most(atom, least, digits);
            return Ok(fits);
        }
        if c != '}' || (digits.count > 0 && digits.value < least.value) {
            return Ok(false);
        }
        if digits.count > 0 {
            self.add_times(atom, least.value, digits.value)?;
        } else {
            self.add_from(atom, least.value)?;
        }
        Ok(true)
    }

    // Puts an atom that stands so many times.
    fn add_times(&mut self, atom: ReadAtom, least: u32, most: u32) -> Result<(), NoMemory>
        requires { most < 10000 }
        ensures { (outer : List LevelRead) (l : LevelRead) → Keeps (state_at outer l Start) self.old → (a : AtomRead) → KeepsAtom a atom
            → OnOk result (Keeps (state_at outer (with_piece l a (between least (Some most)) (a.size * max most 1)) Start) self.new) }
    {
        let size = size_times(atom.size, most.max(1));
        self.level.add_piece(
            atom,
            Bounds {
                min: least,
                max: Some(most),
            },
            size,
        )
    }

    // Puts an atom that stands so many times or more.
    fn add_from(&mut self, atom: ReadAtom, least: u32) -> Result<(), NoMemory>
        requires { least < 10000 }
        ensures { (outer : List LevelRead) (l : LevelRead) → Keeps (state_at outer l Start) self.old → (a : AtomRead) → KeepsAtom a atom
            → OnOk result (Keeps (state_at outer (with_piece l a (between least None) (a.size * (least + 1))) Start) self.new) }
    {
        let size = size_times(atom.size, least + 1);
        self.level.add_piece(
            atom,
            Bounds {
                min: least,
                max: None,
            },
            size,
        )
    }

    // Takes a character in a class.
    fn class(&mut self, class: ClassReader, c: char) -> Result<bool, NoMemory>
        ensures { (outer : List LevelRead) (l : LevelRead) → Keeps (state_at outer l Start) self.old → IfOk result (λ fits. Takes (in_class outer l (class_step class c).0 (class_step class c).1) fits self.new) }
    {
        let mut class = class;
        match class.take(c)? {
            ClassTaken::More => self.place = Place::Class(class),
            ClassTaken::Whole => {
                let ClassReader {
                    negated,
                    members,
                    place: _,
                } = class;
                self.place = Place::Behind(one_character(Atom::Class { negated, members }));
            }
            ClassTaken::Misfit => return Ok(false),
        }
        Ok(true)
    }

    /// The pattern that all characters spell, where they spell one within the limits.
    pub fn finish(self) -> Result<Option<Regex>, NoMemory>
        ensures { (s : State) → Keeps s self → IfOk result (λ found. Finishes (ended s) found) }
    {
        match self.end()? {
            Some(level) => within(level),
            None => Ok(None),
        }
    }

    // The level that is whole where the text ends here.
    fn end(self) -> Result<Option<Level>, NoMemory>
        ensures { (s : State) → Keeps s self → IfOk result (λ found. KeepsEnd (ended s) found) }
    {
        let PatternReader {
            alloc: _,
            outer,
            level,
            place,
        } = self;
        if !outer.is_empty() {
            return Ok(None);
        }
        ended_level(level, place)
    }
}

// The outermost level, where it may end.
fn ended_level(level: Level, place: Place) -> Result<Option<Level>, NoMemory>
    ensures { (l : LevelRead) (p : reading.Place) → KeepsLevel l level → KeepsPlace p place → IfOk result (λ found. KeepsEnd (ended_at [] l p) found) }
{
    match place {
        Place::Start => Ok(Some(level)),
        Place::Behind(atom) => {
            let mut level = level;
            level.add_once(atom)?;
            Ok(Some(level))
        }
        Place::Escape | Place::Least(..) | Place::Most(..) | Place::Class(_) => Ok(None),
    }
}

// The pattern of a level, where it is within the limits.
fn within(level: Level) -> Result<Option<Regex>, NoMemory>
    ensures { (l : LevelRead) → KeepsLevel l level → IfOk result (λ found. Finishes (Some l) found) }
{
    if !level.is_within() {
        return Ok(None);
    }
    Ok(Some(level.into_regex()?))
}

// An atom that takes one character.
fn one_character(atom: Atom) -> ReadAtom
    ensures { KeepsAtom (atom_read atom 1 0) result }
{
    ReadAtom {
        atom,
        size: 1,
        levels: 0,
    }
}
