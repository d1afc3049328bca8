ghost use Rattle.std.specs.Prelude.{◌↔◌, IsNone, IfOk};
ghost use Rattle.odd_cases.specs.Comparing.{IsAnswered};

use crate::comparing::{Answer, is_answered, is_wanted};
use crate::question::{Faulty, Reply, Wanted};
use odd_base::{Files, MemShelf, MemSink};
use odd_case_files::{CaseFault, add_place};
use odd_cli::run;
use odd_text::{Bytes, Words};
use std::alloc::Global;

// How many bytes an output takes, and how many of them at once.
const ROOM: usize = 4_000_000;

const CHUNK: usize = 10;

// How many bytes a read brings.
const READ: usize = 16;

/// What a run with the words answers.
pub fn answer_of(
    alloc: Global,
    words: &Words,
    files: Files,
    faulty: Faulty,
) -> Result<Answer, CaseFault> {
    let mut shelf = MemShelf::new(files, READ, faulty.shelf);
    let mut out = MemSink::new(alloc, ROOM, CHUNK, faulty.out)?;
    let mut note = MemSink::new(alloc, ROOM, CHUNK, faulty.note)?;
    let code = run(alloc, words, &mut shelf, &mut out, &mut note).code();
    Ok(Answer {
        code,
        note: Bytes::from_slice(alloc, note.written())?,
        out: Bytes::from_slice(alloc, out.written())?,
    })
}

/// What an answer has otherwise than the wanted one.
pub fn reply_difference(
    alloc: Global,
    reply: &Reply,
    answer: &Answer,
) -> Result<Option<String>, CaseFault>
    ensures { IfOk result (λ told. IsNone told ↔ IsAnswered reply.now answer.now) }
{
    if is_answered(reply, answer) {
        return Ok(None);
    }
    let mut told = String::new(alloc);
    if reply.code != answer.code {
        write!(told, " code {} for {}", answer.code, reply.code)?;
    }
    add_difference(&mut told, "note", &reply.note, answer.note.as_slice())?;
    add_difference(&mut told, "out", &reply.out, answer.out.as_slice())?;
    Ok(Some(told))
}

// Puts what is written otherwise than wanted.
fn add_difference(
    told: &mut String,
    name: &str,
    wanted: &Wanted,
    bytes: &[u8],
) -> Result<(), CaseFault> {
    if is_wanted(wanted, bytes) {
        return Ok(());
    }
    match wanted {
        Wanted::Whole(whole) => add_place(told, name, whole.as_slice(), bytes),
        Wanted::Holding(_) => {
            write!(told, " {name} lacks a part")?;
            Ok(())
        }
    }
}
