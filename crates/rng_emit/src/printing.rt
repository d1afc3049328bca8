ghost use Rattle.std.specs.Prelude.{◌≡◌, [], ◌∷◌, ◌++◌, IfOk, OnOk, codes};
ghost use Rattle.odd_tree.specs.Markup.{plain, printed};
ghost use Rattle.rng_grammar.specs.Denoting.{DenotesOnly};
ghost use Rattle.rng_emit.specs.Grammar.{grammar_text, pattern_markup};
ghost use Rattle.rng_emit.specs.Plain.{IsPlain};

use crate::bodies::add_defines;
use crate::patterns::add_pattern;
use odd_printing::{
    add_attribute, add_declaration, add_end_tag, add_start_tag, begin_tag_with, end_start_tag,
};
use odd_text::{NoMemory, Text};
use rng_grammar::{Expr, Grammar};
use std::alloc::Global;

/// The namespace of RELAX NG.
pub const RELAX_NG: &str = "http://relaxng.org/ns/structure/1.0";

/// The datatype library of XML Schema.
pub const DATATYPES: &str = "http://www.w3.org/2001/XMLSchema-datatypes";

/// The text of a grammar as a RELAX NG schema in XML syntax (docs/schema.md). Of a grammar that is plain it denotes that
/// grammar, and no other (ISO/IEC 19757-2, section 7). NoMemory is answered for want of memory.
pub fn print_rng(alloc: Global, grammar: &Grammar) -> Result<Text, NoMemory>
    ensures text { IfOk result (λ text. text ≡ grammar_text grammar.now) }
    ensures denotes { IfOk result (λ text. IsPlain grammar.now → DenotesOnly text grammar.now) }
{
    declared_grammar(alloc, grammar)
}

// The declaration's line and the grammar.
fn declared_grammar(alloc: Global, grammar: &Grammar) -> Result<Text, NoMemory>
    ensures { IfOk result (λ text. text ≡ grammar_text grammar.now) }
{
    let mut out = Text::new(alloc);
    add_declaration(&mut out)?;
    begin_tag_with(&mut out, "grammar", "xmlns", RELAX_NG)?;
    add_attribute(&mut out, "datatypeLibrary", DATATYPES)?;
    end_start_tag(&mut out)?;
    add_start(&mut out, &grammar.start)?;
    add_defines(&mut out, &grammar.defines)?;
    add_end_tag(&mut out, "grammar")?;
    Ok(out)
}

fn add_start(out: &mut Text, start: &Expr) -> Result<(), NoMemory>
    ensures { OnOk result (out.new ≡ out.old ++ printed (plain (codes "start") (pattern_markup start.now ∷ []))) }
{
    add_start_tag(out, "start")?;
    add_pattern(out, start)?;
    add_end_tag(out, "start")
}
