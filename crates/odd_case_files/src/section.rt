use crate::fault::CaseFault;
use std::alloc::Global;

// What a head begins with.
const HEAD: &str = "=== ";

const NEXT_HEAD: &str = "\n=== ";

/// A head, without the mark that it begins with, and the lines below it without the last line break. Where no line
/// stands below it there is no body.
#[derive(Drop)]
pub struct Section<'a> {
    pub head: &'a str,
    pub body: Option<&'a str>,
}

/// The sections of a file in their order.
pub fn read_sections(alloc: Global, text: &str) -> Result<Vec<Section<'_>>, CaseFault> {
    let mut sections = Vec::new(alloc);
    let Some(text) = text.strip_prefix(HEAD) else {
        return Err(CaseFault::NoHead);
    };
    let text = text.strip_suffix('\n').unwrap_or(text);
    for section in text.split(NEXT_HEAD) {
        sections.push(match section.split_once('\n') {
            Some((head, body)) => Section {
                head,
                body: Some(body),
            },
            None => Section {
                head: section,
                body: None,
            },
        })?;
    }
    Ok(sections)
}
