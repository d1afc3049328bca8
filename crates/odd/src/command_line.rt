//! What the program is given, and what it ends with.

ghost use Rattle.std.specs.Prelude.{◌≡◌, IfOk, IfErr, Err, OnOk, map, string_bytes};
ghost use Rattle.std.specs.IoError.{error_kind};
ghost use Rattle.std.specs.Process.{exit_status};
ghost use Rattle.odd_cli.specs.Note.{code_of};
ghost use Rattle.std.specs.Vec.Iter.{into_iter_items};
ghost use Rattle.odd.specs.CommandLine.{after_name, ending_without_words};

use odd_cli::Status;
use odd_text::{NoMemory, Text, Words};
use std::alloc::Global;
use std::env::Args;
use std::io::{self, ErrorKind};
use std::process::ExitCode;

/// The words after the program's name, or the status that the program ends with where it has none.
pub fn words_given(alloc: Global, given: io::Result<Args>) -> Result<Words, Status>
    ensures words { IfOk given (λ args. IfOk result (λ words. words ≡ after_name (map string_bytes (into_iter_items args)))) }
    ensures no_memory { OnOk given (IfErr result (λ status. status ≡ Status.NoMemory)) }
    ensures not_given { IfErr given (λ error. result ≡ Err (ending_without_words (error_kind error))) }
{
    match given {
        Ok(args) => match words_after_name(alloc, args) {
            Ok(words) => Ok(words),
            Err(NoMemory) => Err(Status::NoMemory),
        },
        Err(error) => match error.kind() {
            ErrorKind::OutOfMemory => Err(Status::NoMemory),
            _ => Err(Status::Usage),
        },
    }
}

fn words_after_name(alloc: Global, mut args: Args) -> Result<Words, NoMemory>
    ensures { IfOk result (λ words. words ≡ after_name (map string_bytes (into_iter_items args))) }
{
    let _name = args.next();
    let mut words = Words::new(alloc);
    for word in args {
        words.push(Text::from_str(alloc, word.as_str())?)?;
    }
    Ok(words)
}

/// What the process ends with after a status.
pub fn ending(status: &Status) -> ExitCode
    ensures { exit_status result ≡ code_of status.now }
{
    ExitCode::from(status.code())
}
