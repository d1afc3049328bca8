use crate::escapes::add_escaped;
use crate::fault::CaseFault;
use std::alloc::Global;

/// How the lines below a head are read.
#[derive(Clone, Copy)]
pub enum Form {
    /// As they are.
    Lines,
    /// Without the last line break.
    Bare,
    /// Without the last line break, and with escapes.
    Escaped,
}

/// The form that a head ends with, and what stands before it.
pub fn form_of(head: &str) -> (&str, Form) {
    match head.rsplit_once(' ') {
        Some((before, "bare")) => (before, Form::Bare),
        Some((before, "escaped")) => (before, Form::Escaped),
        _ => (head, Form::Lines),
    }
}

/// Puts a body, given without its last line break.
pub fn add_body(out: &mut Vec<u8>, body: Option<&str>, form: Form) -> Result<(), CaseFault> {
    let Some(text) = body else {
        return Ok(());
    };
    match form {
        Form::Lines => {
            out.extend_from_slice(text.as_bytes())?;
            out.push(b'\n')?;
        }
        Form::Bare => out.extend_from_slice(text.as_bytes())?,
        Form::Escaped => add_escaped(out, text)?,
    }
    Ok(())
}

/// Puts a body once for each number from the first to the last, with the number in place of each `#`, and the one after it in
/// place of each `#+`.
pub fn add_each(
    alloc: Global,
    out: &mut Vec<u8>,
    body: Option<&str>,
    form: Form,
    first: u32,
    last: u32,
) -> Result<(), CaseFault> {
    let Some(text) = body else {
        return Ok(());
    };
    for step in 0..=last.abs_diff(first) {
        let number = if first <= last {
            first.saturating_add(step)
        } else {
            first.saturating_sub(step)
        };
        let next = format!(in alloc; "{}", number.saturating_add(1))?;
        let number = format!(in alloc; "{number}")?;
        let text = text.replace(alloc, "#+", next.as_str())?;
        let text = text.replace(alloc, "#", number.as_str())?;
        add_body(out, Some(text.as_str()), form)?;
    }
    Ok(())
}
