use crate::values::{said, text_of};
use odd_case_files::CaseFault;
use odd_text::{NoMemory, Text};
use rng_matching::Matcher;
use rng_values::{PatternRefusal, read_pattern};
use std::alloc::Global;

/// How many steps are remembered from text to text.
const ROOM: usize = 8192;

/// Puts of each text in the fields behind a pattern whether it matches, or that the first field spells no pattern.
pub fn add_matching(alloc: Global, out: &mut Text, question: &str) -> Result<(), CaseFault> {
    let Some((pattern, texts)) = question.split_once('\t') else {
        return Err(CaseFault::NoValue);
    };
    let regex = match read_pattern(alloc, &text_of(alloc, pattern)?) {
        Ok(regex) => regex,
        Err(PatternRefusal::BadPattern { .. }) => return Ok(out.push_str("no pattern")?),
        Err(PatternRefusal::NoMemory) => return Err(CaseFault::NoMemory),
    };
    let mut matcher = Matcher::new(alloc, &regex, ROOM)?;
    Ok(add_matched(alloc, out, &mut matcher, texts)?)
}

// Puts of each text whether it matches.
fn add_matched(
    alloc: Global,
    out: &mut Text,
    matcher: &mut Matcher,
    texts: &str,
) -> Result<(), NoMemory> {
    let mut is_first = true;
    for text in texts.split('\t') {
        if !is_first {
            out.push(' ')?;
        }
        is_first = false;
        let text = text_of(alloc, text)?;
        out.push_str(said(matcher.is_match(text.as_str())?))?;
    }
    Ok(())
}
