use crate::pooled::matches_pooled;
use crate::postfix::{Making, add_pattern, read_pattern};
use crate::spelled::Spelled;
use odd_case_files::CaseFault;
use odd_patterns::{Alphabet, Pat, derive, nullable};
use odd_text::{NoMemory, Text, TryCopy, Words};
use std::alloc::Global;

/// The lines, with what is told of the pattern that each begins with, and the asked words that it matches.
pub fn told_patterns<A: Spelled>(
    alloc: Global,
    alphabet: &A,
    asked: &Words,
    lines: &str,
) -> Result<Text, CaseFault> {
    let mut out = Text::new(alloc);
    for line in lines.split('\n') {
        if !out.as_str().is_empty() {
            out.push('\n')?;
        }
        add_line(alloc, alphabet, &mut out, asked, line)?;
    }
    Ok(out)
}

// Puts a line, with what is told of its pattern.
fn add_line<A: Spelled>(
    alloc: Global,
    alphabet: &A,
    out: &mut Text,
    asked: &Words,
    line: &str,
) -> Result<(), CaseFault> {
    let (text, rest) = line.split_once(' ').unwrap_or((line, ""));
    let made = read_pattern(alloc, alphabet, text, Making::Calls)?;
    out.push_str(text)?;
    add_made(alloc, alphabet, out, &made, rest)?;
    let plain = read_pattern(alloc, alphabet, text, Making::Plain)?;
    add_all_matched(alloc, alphabet, out, asked, &plain, &made)
}

// Puts what the calls made, or how many levels it has, where the line asks for it.
fn add_made<A: Spelled>(
    alloc: Global,
    alphabet: &A,
    out: &mut Text,
    made: &Pat<A>,
    asking: &str,
) -> Result<(), NoMemory> {
    if asking.starts_with("= ") {
        out.push_str(" = ")?;
        add_pattern(alphabet, out, made)
    } else if asking.starts_with("depth ") {
        out.push_str(format!(in alloc; " depth {}", depth(made))?.as_str())
    } else {
        Ok(())
    }
}

// Puts the words that a pattern matches. It is asked as the constructors and as the calls make it, and a copy of each.
fn add_all_matched<A: Spelled>(
    alloc: Global,
    alphabet: &A,
    out: &mut Text,
    asked: &Words,
    plain: &Pat<A>,
    made: &Pat<A>,
) -> Result<(), CaseFault> {
    let copies = (plain.copy(alloc)?, made.copy(alloc)?);
    let forms = [plain, made, &copies.0, &copies.1];
    out.push_str(" :")?;
    for word in asked.as_slice() {
        add_matched(alloc, alphabet, out, &forms, word.as_str())?;
    }
    Ok(())
}

// Puts a word where the pattern matches it in each form, by itself and in a pool, and with a '?' where in some.
fn add_matched<A: Spelled>(
    alloc: Global,
    alphabet: &A,
    out: &mut Text,
    forms: &[&Pat<A>],
    text: &str,
) -> Result<(), CaseFault> {
    let word = alphabet.word_of(alloc, text.trim_start_matches('-'))?;
    let mut count = 0usize;
    for pat in forms {
        if matches(alloc, alphabet, pat, word.as_slice())? {
            count = count.saturating_add(1);
        }
        if matches_pooled(alloc, alphabet, pat, word.as_slice())? {
            count = count.saturating_add(1);
        }
    }
    if count == 0 {
        return Ok(());
    }
    let all = forms.len().saturating_mul(2);
    out.push_str(if count == all { " " } else { " ?" })?;
    out.push_str(text)?;
    Ok(())
}

// Whether a pattern matches a word.
fn matches<A: Alphabet>(
    alloc: Global,
    alphabet: &A,
    pat: &Pat<A>,
    word: &[A::Symbol],
) -> Result<bool, NoMemory> {
    let Some((first, others)) = word.split_first() else {
        return Ok(nullable(pat));
    };
    let mut rest = derive(alloc, alphabet, pat, first)?;
    for symbol in others {
        rest = derive(alloc, alphabet, &rest, symbol)?;
    }
    Ok(nullable(&rest))
}

// How many levels a pattern has.
fn depth<A: Alphabet>(pat: &Pat<A>) -> usize {
    let below = match pat {
        Pat::Never | Pat::Empty | Pat::Leaf(_) => 0,
        Pat::Choice(left, right) | Pat::Group(left, right) => {
            depth(left.get()).max(depth(right.get()))
        }
        Pat::More(part) => depth(part.get()),
    };
    below.saturating_add(1)
}
