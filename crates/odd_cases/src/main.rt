//! Runs the cases of data/: whole runs over files and outputs in memory, and questions to single layers. Tells each whose answer is not
//! the wanted one.
#![tactic(auto)]

mod all_words;
mod allowing;
mod answering;
mod attributes;
mod chains;
mod comparing;
mod contents;
mod doc_contents;
mod doc_edits;
mod docs;
mod draft;
mod items;
mod letters;
mod libraries;
mod matching;
mod patterns;
mod pooled;
mod postfix;
mod question;
mod regexes;
mod runs;
mod showing;
mod spelled;
mod values;

use crate::answering::Answers;
use anyhow::Result;
use odd_case_files::tell_outcomes;

fn main(rt: HostRuntime) -> Result<()> {
    tell_outcomes(&rt, &Answers)?;
    Ok(())
}
