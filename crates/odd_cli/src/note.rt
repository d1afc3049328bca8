ghost use Rattle.std.specs.Prelude.{◌≡◌, ◌++◌, is_ok, codes, decimal};
ghost use Rattle.odd_cli.specs.Note.{asides_text, Says, kind_word, limit_text, note_text, place_text, who_text};

use crate::status::{LimitKind, Status};
use itoa::Buffer;
use odd_base::{Sink, SinkFault, write_whole};
use odd_text::{Kind, Offence, Who};

/// Writes the line of a status, piece by piece and without memory. Done has a line where constraints are taken out, with their
/// number.
pub fn write_note<N: Sink>(
    note: &mut N,
    status: &Status,
    asides: Option<u64>,
) -> Result<(), SinkFault>
    ensures { Says N.written N.faults note.old note.new (note_text status.now asides) (is_ok result) }
{
    match status {
        Status::Done => write_asides(note, asides),
        Status::Refused(offence) => write_offence(note, offence),
        Status::NotXml { file, at } => write_not_xml(note, *file, *at),
        Status::Usage => say(note, "odd: usage\n"),
        Status::Limit(kind) => write_limit(note, kind),
        Status::ReadFault { file } => line(note, "odd: read fault file ", *file, "\n"),
        Status::WriteFault => say(note, "odd: write fault\n"),
        Status::NoMemory => say(note, "odd: no memory\n"),
    }
}

fn write_limit<N: Sink>(note: &mut N, kind: &LimitKind) -> Result<(), SinkFault>
    ensures { Says N.written N.faults note.old note.new (limit_text kind.now) (is_ok result) }
{
    match kind {
        LimitKind::Bytes { file } => line(note, "odd: limit bytes file ", *file, "\n"),
        LimitKind::Depth { file, at } => {
            line(note, "odd: limit depth file ", *file, " byte ")?;
            say_number(note, *at)?;
            say(note, "\n")
        }
        LimitKind::Files => say(note, "odd: limit files\n"),
        LimitKind::Nodes => say(note, "odd: limit nodes\n"),
    }
}

// How many constraints were taken out, where they are.
fn write_asides<N: Sink>(note: &mut N, asides: Option<u64>) -> Result<(), SinkFault>
    ensures { Says N.written N.faults note.old note.new (asides_text asides) (is_ok result) }
{
    match asides {
        Some(count) => between(note, "odd: set aside ", count, "\n"),
        None => Ok(()),
    }
}

fn write_not_xml<N: Sink>(note: &mut N, file: u32, at: u64) -> Result<(), SinkFault>
    ensures { Says N.written N.faults note.old note.new (codes "odd: " ++ place_text file at ++ codes ": not XML\n") (is_ok result) }
{
    say(note, "odd: ")?;
    write_place(note, file, at)?;
    say(note, ": not XML\n")
}

// A byte of a file.
fn write_place<N: Sink>(note: &mut N, file: u32, at: u64) -> Result<(), SinkFault>
    ensures { Says N.written N.faults note.old note.new (place_text file at) (is_ok result) }
{
    line(note, "file ", file, ": byte ")?;
    say_number(note, at)
}

fn write_offence<N: Sink>(note: &mut N, offence: &Offence) -> Result<(), SinkFault>
    ensures { Says N.written N.faults note.old note.new (codes "odd: " ++ who_text offence.now.file offence.now.who ++ codes ": rule " ++ decimal offence.now.rule ++ codes "\n") (is_ok result) }
{
    say(note, "odd: ")?;
    write_who(note, offence.file, &offence.who)?;
    say(note, ": rule ")?;
    say_number(note, offence.rule as u64)?;
    say(note, "\n")
}

// Whom an offence in the file is of.
fn write_who<N: Sink>(note: &mut N, file: u32, who: &Who) -> Result<(), SinkFault>
    ensures { Says N.written N.faults note.old note.new (who_text file who.now) (is_ok result) }
{
    match who {
        Who::At(at) => write_place(note, file, *at),
        Who::Part(key) => {
            line(note, "file ", file, ": ")?;
            say(note, word_of_kind(key.kind))?;
            say(note, " ")?;
            say(note, key.ident.as_str())
        }
        Who::Start(word) => {
            say(note, "start ")?;
            say(note, word.as_str())
        }
        Who::Asked(ident) => {
            say(note, "explain ")?;
            say(note, ident.as_str())
        }
    }
}

fn word_of_kind(kind: Kind) -> &'static str
    ensures { result.now ≡ kind_word kind }
{
    match kind {
        Kind::Element => "element",
        Kind::Class => "class",
        Kind::Macro => "macro",
        Kind::Datatype => "datatype",
    }
}

// A file's number between two texts.
fn line<N: Sink>(note: &mut N, before: &str, file: u32, after: &str) -> Result<(), SinkFault>
    ensures { Says N.written N.faults note.old note.new (before.now ++ decimal file ++ after.now) (is_ok result) }
{
    between(note, before, file as u64, after)
}

// A number between two texts.
fn between<N: Sink>(note: &mut N, before: &str, number: u64, after: &str) -> Result<(), SinkFault>
    ensures { Says N.written N.faults note.old note.new (before.now ++ decimal number ++ after.now) (is_ok result) }
{
    say(note, before)?;
    say_number(note, number)?;
    say(note, after)
}

fn say<N: Sink>(note: &mut N, text: &str) -> Result<(), SinkFault>
    ensures { Says N.written N.faults note.old note.new text.now (is_ok result) }
{
    write_whole(note, text.as_bytes())
}

fn say_number<N: Sink>(note: &mut N, number: u64) -> Result<(), SinkFault>
    ensures { Says N.written N.faults note.old note.new (decimal number) (is_ok result) }
{
    let mut buffer = Buffer::new();
    write_whole(note, buffer.format(number).as_bytes())
}
