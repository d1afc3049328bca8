//! What neither the program nor a case calls, called with ample memory.

use crate::attributes::{AttEdit, AttEdits};
use crate::base::{
    Calls, Files, Key, Kind, MemShelf, Name, NoMemory, Shelf, ShelfFault, Table, Text, Words,
};
use crate::classes::{check, check_cycles};
use crate::cli::{Command, Job, read_words};
use crate::compiling::{CompileRefusal, compile, explain};
use crate::content::Content;
use crate::decls::{
    ClassMarks, Component, ElementPart, Library, Membership, Mode, OddRefusal, Spec,
};
use crate::emit::print_rng;
use crate::modes::edit;
use crate::patterns::{Children, Pat, Pool};
use crate::reader::{escape_text, escape_value};
use std::alloc::Global;
use std::test::Fail;

fn key(alloc: Global) -> Result<Key, NoMemory> {
    Ok(Key {
        kind: Kind::Element,
        ident: Text::from_str(alloc, "a")?,
    })
}

// A declaration that makes an element a member of one class more, and deletes its attribute `t`.
fn change(alloc: Global) -> Result<Spec, NoMemory> {
    let mut marks = ClassMarks::new(alloc);
    marks.put(Text::from_str(alloc, "c")?, true)?;
    let mut atts = AttEdits::new(alloc);
    atts.put(Text::from_str(alloc, "t")?, AttEdit::Delete)?;
    Ok(Spec {
        key: key(alloc)?,
        mode: Mode::Change,
        module: Text::new(alloc),
        ns: None,
        alt: None,
        gives: None,
        classes: Some(Membership::Change(marks)),
        content: None,
        atts,
    })
}

// An element that is a member of no class.
fn element(alloc: Global) -> Result<Component, NoMemory> {
    Ok(Component::Element(ElementPart {
        module: Text::new(alloc),
        ns: Text::from_str(alloc, "urn:x")?,
        alt: None,
        classes: Words::new(alloc),
        content: Content::Empty,
        atts: AttEdits::new(alloc),
    }))
}

#[test]
fn an_element_is_edited(rt: HostRuntime) -> Result<(), Fail> {
    let spec = change(rt.alloc())?;
    let made = edit(rt.alloc(), element(rt.alloc())?, &spec)?;
    let Component::Element(part) = &made else {
        return Err(Fail::from("an element is made something else"));
    };
    assert_eq!(rt; part.classes.get(0).map(|word| word.as_str()), Some("c"));
    assert!(rt; part.atts.len() == 1 && part.atts.key(0).is_some());
    assert!(rt; matches!(part.atts.value(0), Some(AttEdit::Delete)));
    assert!(rt; part.atts.find(&Text::from_str(rt.alloc(), "t")?).is_some());
    Ok(())
}

#[test]
fn a_name_is_the_same_as_itself(rt: HostRuntime) -> Result<(), Fail> {
    let name = Name {
        ns: Text::from_str(rt.alloc(), "urn:x")?,
        local: Text::from_str(rt.alloc(), "a")?,
    };
    assert!(rt; name.same(&name));
    Ok(())
}

#[test]
fn the_last_of_a_table_is_taken(rt: HostRuntime) -> Result<(), Fail> {
    let mut table: Table<Key, usize> = Table::new(rt.alloc());
    table.push(key(rt.alloc())?, 5)?;
    assert_eq!(rt; table.value(0), Some(&5));
    assert!(rt; table.pop_last().is_some());
    assert_eq!(rt; table.len(), 0);
    Ok(())
}

#[test]
fn a_text_and_a_value_are_escaped(rt: HostRuntime) -> Result<(), Fail> {
    let plain = Text::from_str(rt.alloc(), "a&b<c>d\"e\tf\ng\rh'ä€𝄞")?;
    assert_eq!(rt;
        escape_text(rt.alloc(), &plain)?.as_str(),
        "a&amp;b&lt;c&gt;d\"e\tf\ng&#13;h'ä€𝄞"
    );
    assert_eq!(rt;
        escape_value(rt.alloc(), &plain)?.as_str(),
        "a&amp;b&lt;c&gt;d&quot;e&#9;f&#10;g&#13;h'ä€𝄞"
    );
    Ok(())
}

#[test]
fn a_pattern_stands_in_a_pool_once(rt: HostRuntime) -> Result<(), Fail> {
    let mut pool: Pool<Children> = Pool::new(rt.alloc());
    let first = pool.put(&Pat::Empty)?;
    assert_eq!(rt; pool.put(&Pat::Empty)?, first);
    assert_eq!(rt; pool.len(), 1);
    Ok(())
}

#[test]
fn a_read_before_any_file_faults(rt: HostRuntime) -> Result<(), Fail> {
    let mut shelf = MemShelf::new(Files::new(rt.alloc()), 1, Calls::new(rt.alloc()));
    let mut front = [0u8; 4];
    assert_eq!(rt; shelf.read(&mut front), Err(ShelfFault));
    Ok(())
}

#[test]
fn words_say_a_job(rt: HostRuntime) -> Result<(), Fail> {
    let mut words = Words::new(rt.alloc());
    words.push(Text::from_str(rt.alloc(), "compile")?)?;
    words.push(Text::from_str(rt.alloc(), "f")?)?;
    assert!(rt;
        matches!(
            read_words(&words),
            Some(Job {
                command: Command::Compile,
                ..
            })
        )
    );
    Ok(())
}

// The schema of a library without a start word.
fn schema(alloc: Global, library: &Library) -> Result<Text, NoMemory> {
    if check(alloc, library).is_err() {
        return Text::from_str(alloc, "broken");
    }
    match compile(alloc, library, &Words::new(alloc)) {
        Ok(grammar) => print_rng(alloc, &grammar),
        Err(CompileRefusal::NoMemory) => Err(NoMemory),
        Err(_) => Text::from_str(alloc, "refused"),
    }
}

#[test]
fn a_schema_of_no_start_word_allows_nothing(rt: HostRuntime) -> Result<(), Fail> {
    let schema = schema(rt.alloc(), &Library::empty(rt.alloc())?)?;
    assert!(rt; schema.as_str().contains("<start>\n<notAllowed/>\n</start>"));
    Ok(())
}

// What is answered where the account of an element is asked for that is not held.
fn rule_of_no_account(alloc: Global, library: &Library) -> Result<u8, NoMemory> {
    if check(alloc, library).is_err() {
        return Ok(0);
    }
    match explain(alloc, library, &Text::from_str(alloc, "a")?) {
        Ok(_) => Ok(0),
        Err(OddRefusal::Offence(offence)) => Ok(offence.rule),
        Err(OddRefusal::NoMemory) => Err(NoMemory),
    }
}

#[test]
fn a_library_that_holds_nothing_has_no_cycle_and_no_account(rt: HostRuntime) -> Result<(), Fail> {
    let library = Library::empty(rt.alloc())?;
    assert!(rt; check_cycles(rt.alloc(), &library).is_ok());
    assert_eq!(rt; rule_of_no_account(rt.alloc(), &library)?, 21);
    Ok(())
}
