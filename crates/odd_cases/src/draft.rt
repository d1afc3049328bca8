use crate::all_words::all_words;
use crate::docs::read_docs;
use crate::question::{Chain, Faulty, Question, Reply, Wanted};
use odd_base::{Calls, File, Files};
use odd_case_files::{
    Asked, CaseFault, Device, Head, Part, Shown, said_answer, said_words, set_once,
};
use odd_text::{Bytes, Text, Words};
use std::alloc::Global;

// What is read of a case so far.
#[derive(Drop)]
struct Draft {
    files: Files,
    words: Option<Words>,
    reply: ReplyDraft,
    asked: Option<Words>,
    shown: Option<(Shown, Bytes)>,
    chains: Vec<Chain>,
}

// What is read of a reply so far. The parts are those that the output must have.
#[derive(Drop)]
struct ReplyDraft {
    code: Option<u8>,
    note: Option<Bytes>,
    out: Option<Bytes>,
    parts: Vec<Bytes>,
    faulty: Faulty,
    // whether something is said of it
    is_begun: bool,
}

/// The question of a case.
pub fn read_question(alloc: Global, parts: Vec<Part<'_>>) -> Result<Question, CaseFault> {
    let mut draft = empty_draft(alloc);
    for part in parts {
        put_part(alloc, &mut draft, part)?;
    }
    if draft.chains.is_empty() {
        return finish(alloc, draft);
    }
    chains_question(draft)
}

fn empty_draft(alloc: Global) -> Draft {
    Draft {
        files: Files::new(alloc),
        words: None,
        reply: ReplyDraft {
            code: None,
            note: None,
            out: None,
            parts: Vec::new(alloc),
            faulty: Faulty {
                shelf: Calls::new(alloc),
                out: Calls::new(alloc),
                note: Calls::new(alloc),
            },
            is_begun: false,
        },
        asked: None,
        shown: None,
        chains: Vec::new(alloc),
    }
}

fn put_part(alloc: Global, draft: &mut Draft, part: Part<'_>) -> Result<(), CaseFault> {
    let Part { head, text } = part;
    match head {
        Head::Words => set_once(&mut draft.words, said_words(alloc, text.as_slice())?),
        Head::File(name) => {
            let name = Text::from_str(alloc, name)?;
            let bytes = Bytes::from_vec(text);
            draft.files.push(File { name, bytes })?;
            Ok(())
        }
        Head::Shown(shown) => {
            let wanted = said_answer(alloc, text.as_slice())?;
            set_once(&mut draft.shown, (shown, wanted))
        }
        Head::Asked if text.is_empty() => Err(CaseFault::NoLines),
        Head::Asked => set_once(&mut draft.asked, said_words(alloc, text.as_slice())?),
        Head::AllWords(length, symbols) => {
            set_once(&mut draft.asked, all_words(alloc, length, symbols)?)
        }
        Head::Docs => {
            draft.chains.push(Chain {
                docs: read_docs(alloc, text.as_slice())?,
                wanted: Vec::new(alloc),
            })?;
            Ok(())
        }
        Head::Of(asked) => {
            let wanted = said_answer(alloc, text.as_slice())?;
            put_wanted(&mut draft.chains, asked, wanted)
        }
        _ => put_replied(&mut draft.reply, head, text),
    }
}

// Puts what must be answered of the last chain.
fn put_wanted(chains: &mut Vec<Chain>, asked: Asked, wanted: Bytes) -> Result<(), CaseFault> {
    let Some(chain) = chains.last_mut() else {
        return Err(CaseFault::NoDocs);
    };
    if chain.wanted.iter().any(|(known, _)| *known == asked) {
        return Err(CaseFault::Twice);
    }
    chain.wanted.push((asked, wanted))?;
    Ok(())
}

// Puts what a part says of a reply.
fn put_replied(reply: &mut ReplyDraft, head: Head<'_>, text: Vec<u8>) -> Result<(), CaseFault> {
    reply.is_begun = true;
    match head {
        Head::Code(code) => set_once(&mut reply.code, code),
        Head::Note => set_once(&mut reply.note, Bytes::from_vec(text)),
        Head::Out => set_once(&mut reply.out, Bytes::from_vec(text)),
        Head::OutHas if text.is_empty() => Err(CaseFault::NoLines),
        Head::OutHas => {
            reply.parts.push(Bytes::from_vec(text))?;
            Ok(())
        }
        Head::Fails(device, call) => put_failing(&mut reply.faulty, device, call),
        _ => Err(CaseFault::NotAlone),
    }
}

fn put_failing(faulty: &mut Faulty, device: Device, call: u64) -> Result<(), CaseFault> {
    match device {
        Device::Shelf => faulty.shelf.push(call)?,
        Device::Out => faulty.out.push(call)?,
        Device::Note => faulty.note.push(call)?,
    }
    Ok(())
}

// The question of chains, of each of which something is asked.
fn chains_question(draft: Draft) -> Result<Question, CaseFault> {
    let Draft {
        files,
        words,
        reply,
        asked,
        shown,
        chains,
    } = draft;
    if words.is_some()
        || asked.is_some()
        || shown.is_some()
        || reply.is_begun
        || !files.is_empty()
    {
        return Err(CaseFault::DocsNotAlone);
    }
    if chains.iter().any(|chain| chain.wanted.is_empty()) {
        return Err(CaseFault::NothingAsked);
    }
    Ok(Question::Chains(chains))
}

// The question of a draft without chains, where it asks one thing.
fn finish(alloc: Global, draft: Draft) -> Result<Question, CaseFault> {
    let Draft {
        files,
        words,
        reply,
        asked,
        shown,
        chains: _,
    } = draft;
    match (words, asked, shown) {
        (None, None, None) => Err(CaseFault::NothingAsked),
        (Some(words), None, None) => run_question(alloc, files, words, reply),
        (None, Some(asked), Some((Shown::Patterns(over), wanted)))
            if files.is_empty() && !reply.is_begun => {
            Ok(Question::Patterns {
                over,
                asked,
                wanted,
            })
        }
        (None, None, Some((Shown::Values, wanted))) if files.is_empty() && !reply.is_begun => {
            Ok(Question::Values { wanted })
        }
        (None, None, Some((shown, wanted))) if !reply.is_begun => Ok(Question::Shown {
            file: only_file(files)?,
            shown,
            wanted,
        }),
        _ => Err(CaseFault::NotAlone),
    }
}

// The bytes of a file beside which no other one stands.
fn only_file(files: Files) -> Result<Bytes, CaseFault> {
    let mut files = files.into_items();
    match files.pop() {
        Some(File { name: _, bytes }) if files.is_empty() => Ok(bytes),
        _ => Err(CaseFault::NotAlone),
    }
}

// The run whose reply is wanted. What is left out of that is nothing.
fn run_question(
    alloc: Global,
    files: Files,
    words: Words,
    draft: ReplyDraft,
) -> Result<Question, CaseFault> {
    let ReplyDraft {
        code,
        note,
        out,
        parts,
        faulty,
        is_begun: _,
    } = draft;
    let Some(code) = code else {
        return Err(CaseFault::NoCode);
    };
    let out = match out {
        Some(_) if !parts.is_empty() => return Err(CaseFault::Twice),
        None if !parts.is_empty() => Wanted::Holding(parts),
        out => whole_of(alloc, out),
    };
    let note = whole_of(alloc, note);
    Ok(Question::Run {
        files,
        words,
        faulty,
        reply: Reply { code, note, out },
    })
}

fn whole_of(alloc: Global, bytes: Option<Bytes>) -> Wanted {
    Wanted::Whole(bytes.unwrap_or(Bytes::from_vec(Vec::new(alloc))))
}
