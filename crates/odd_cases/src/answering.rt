use crate::chains::told;
use crate::draft::read_question;
use crate::letters::Letters;
use crate::patterns::told_patterns;
use crate::question::{Chain, Question};
use crate::runs::{answer_of, reply_difference};
use crate::showing::shown_text;
use crate::values::told_values;
use odd_case_files::{Asking, CaseFault, Over, Part, said_text, text_difference};
use odd_patterns::Children;
use std::alloc::Global;

/// What runs and single layers answer.
pub struct Answers;

impl Asking for Answers {
    fn difference(&self, alloc: Global, parts: Vec<Part<'_>>) -> Result<Option<String>, CaseFault> {
        match read_question(alloc, parts)? {
            Question::Run {
                files,
                words,
                faulty,
                reply,
            } => {
                let answer = answer_of(alloc, &words, files, faulty)?;
                reply_difference(alloc, &reply, &answer)
            }
            Question::Shown {
                file,
                shown,
                wanted,
            } => {
                let text = shown_text(alloc, shown, file.as_slice())?;
                text_difference(alloc, shown.name(), &wanted, &text)
            }
            Question::Patterns {
                over,
                asked,
                wanted,
            } => {
                let lines = said_text(wanted.as_slice())?;
                let text = match over {
                    Over::Letters => told_patterns(alloc, &Letters, &asked, lines)?,
                    Over::Children => told_patterns(alloc, &Children, &asked, lines)?,
                };
                text_difference(alloc, "patterns", &wanted, &text)
            }
            Question::Values { wanted } => {
                let text = told_values(alloc, said_text(wanted.as_slice())?)?;
                text_difference(alloc, "values", &wanted, &text)
            }
            Question::Chains(chains) => chains_difference(alloc, chains.as_slice()),
        }
    }
}

// What is answered otherwise than wanted of the first chain where something is.
fn chains_difference(alloc: Global, chains: &[Chain]) -> Result<Option<String>, CaseFault> {
    for (before, chain) in chains.iter().enumerate() {
        if let Some(told) = chain_difference(alloc, chain)? {
            let number = before.saturating_add(1);
            return Ok(Some(format!(in alloc; " chain {number}{told}")?));
        }
    }
    Ok(None)
}

// What is answered of a chain otherwise than wanted.
fn chain_difference(alloc: Global, chain: &Chain) -> Result<Option<String>, CaseFault> {
    for (asked, wanted) in &chain.wanted {
        let text = told(alloc, &chain.docs, *asked)?;
        let difference = text_difference(alloc, asked.name(), wanted, &text)?;
        if difference.is_some() {
            return Ok(difference);
        }
    }
    Ok(None)
}
