//! The program `odd`: the words of the command line, real files and streams, and a status to end with.
#![tactic(auto)]

mod command_line;
mod files;
mod streams;

use crate::command_line::{ending, words_given};
use crate::files::FileShelf;
use crate::streams::StdSink;
use odd_cli::run;
use std::env;
use std::process::ExitCode;

fn main(rt: HostRuntime) -> ExitCode {
    let words = match words_given(rt.alloc(), env::args(&rt)) {
        Ok(words) => words,
        Err(status) => return ending(&status),
    };
    let mut files = FileShelf::new(&rt);
    let mut out = StdSink::new(rt.stdout());
    let mut note = StdSink::new(rt.stderr());
    ending(&run(rt.alloc(), &words, &mut files, &mut out, &mut note))
}

#[cfg(test)]
mod tests;
