use crate::body::{Form, add_body, add_each, form_of};
use crate::fault::CaseFault;
use crate::head::{Head, read_all_words, read_code, read_failing, read_text_head};
use crate::section::{Section, read_sections};
use std::alloc::Global;

/// A part of a case: its head, and its text with all that goes on with it.
#[derive(Drop)]
pub struct Part<'a> {
    pub head: Head<'a>,
    pub text: Vec<u8>,
}

/// The parts of a case in their order.
pub fn read_parts(alloc: Global, text: &str) -> Result<Vec<Part<'_>>, CaseFault> {
    let mut parts: Vec<Part<'_>> = Vec::new(alloc);
    for section in read_sections(alloc, text)? {
        if goes_on(section.head) {
            let Some(part) = parts.last_mut() else {
                return Err(CaseFault::NothingBefore);
            };
            go_on(alloc, part, &section)?;
        } else {
            parts.push(begin_part(alloc, &section)?)?;
        }
    }
    Ok(parts)
}

// Whether a head goes on with the part before it.
fn goes_on(head: &str) -> bool {
    head == "then" || head.starts_with("then ") || head.starts_with("each ")
}

// Puts a section that goes on with a part.
fn go_on(alloc: Global, part: &mut Part<'_>, section: &Section<'_>) -> Result<(), CaseFault> {
    if matches!(
        part.head,
        Head::Code(_) | Head::Fails(_, _) | Head::AllWords(_, _)
    ) {
        return Err(CaseFault::StrayLines);
    }
    let (head, form) = form_of(section.head);
    if head == "then" {
        return add_body(&mut part.text, section.body, form);
    }
    let Some((first, last)) = read_range(head) else {
        return Err(CaseFault::UnknownHead);
    };
    add_each(alloc, &mut part.text, section.body, form, first, last)
}

// The numbers of a head such as `each 1000 5999`.
fn read_range(head: &str) -> Option<(u32, u32)> {
    let (first, last) = head.strip_prefix("each ")?.split_once(' ')?;
    Some((first.parse::<u32>().ok()?, last.parse::<u32>().ok()?))
}

// The part that a section begins. Below a head of words or of numbers no line stands.
fn begin_part<'a>(alloc: Global, section: &Section<'a>) -> Result<Part<'a>, CaseFault> {
    let (kind, rest) = section.head.split_once(' ').unwrap_or((section.head, ""));
    let head = match kind {
        "words" => Some(Head::Words),
        "code" => read_code(rest),
        "fails" => read_failing(rest),
        "all" => read_all_words(rest),
        _ => return text_part(alloc, section),
    };
    let Some(head) = head else {
        return Err(CaseFault::UnknownHead);
    };
    if section.body.is_some() {
        return Err(CaseFault::StrayLines);
    }
    let mut text = Vec::new(alloc);
    if let Head::Words = head {
        add_body(&mut text, Some(rest), Form::Lines)?;
    }
    Ok(Part { head, text })
}

// A part whose text stands below its head.
fn text_part<'a>(alloc: Global, section: &Section<'a>) -> Result<Part<'a>, CaseFault> {
    let (head, form) = form_of(section.head);
    let mut text = Vec::new(alloc);
    let Some(head) = read_text_head(head) else {
        return Err(CaseFault::UnknownHead);
    };
    add_body(&mut text, section.body, form)?;
    Ok(Part { head, text })
}
