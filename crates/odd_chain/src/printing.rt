ghost use Rattle.std.specs.Prelude.{◌≡◌, ℕ, IfOk};
ghost use Rattle.odd_text.specs.declared.key.Key.{Key as AKey};
ghost use Rattle.odd_library.specs.Formed.{IsFormedLibrary};
ghost use Rattle.odd_meaning.specs.Rules.{Breaks};
ghost use Rattle.odd_emit.specs.Components.{merged_odd};
ghost use Rattle.odd_chain.specs.Base.{SpellsBase};

use odd_library::Library;
use odd_text::{NoMemory, Text};
use std::alloc::Global;

/// The text of the merged ODD that stands for the files of a library (docs/merged-odd.md): one `schemaSpec` with a declaration
/// for each component. Edits of attributes stay edits. Of a formed library that breaks no rule, the text is a file after which
/// alone the library is this one, read with `aside` or without. The only error is NoMemory, for want of memory.
pub fn print_odd(alloc: Global, library: &Library) -> Result<Text, NoMemory>
    ensures text { IfOk result (λ text. text ≡ merged_odd library.now) }
    ensures base { IsFormedLibrary library.now → ((key : AKey) (rule : ℕ) → Breaks library.now key rule → ⊥) → IfOk result (SpellsBase library.now) }
{
    odd_emit::print_odd(alloc, library)
}
