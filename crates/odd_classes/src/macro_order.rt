ghost use Rattle.std.specs.Prelude.{IfOk};
ghost use Rattle.odd_meaning.specs.Links.{macros_of};
ghost use Rattle.odd_classes.specs.Placing.{IsGraphOf};
ghost use Rattle.odd_classes.specs.Ranking.{IsMacroOrder};

use odd_graph::{Nodes, ordered};
use odd_library::Library;
use odd_text::{Kind, NoMemory, TryCopy, Words};
use std::alloc::Global;

/// The idents of the macros of a library that reach no macro which reaches itself, each once, in an order in which each stands
/// after those held ones that its content names (TEI Guidelines, the chapter Documentation Elements), with the graph of the library by
/// macros. The only error is NoMemory, for want of memory.
pub fn in_macro_order(alloc: Global, library: &Library, arrows: &[Nodes]) -> Result<Words, NoMemory>
    requires { IsGraphOf macros_of library.now.parts arrows.now }
    ensures { IfOk result (IsMacroOrder library.now) }
{
    let _ = library.parts.entries();
    let order = ordered(alloc, arrows)?;
    let mut idents = Words::new(alloc);
    for place in order.as_slice() {
        if let Some(key) = library.parts.key(*place) {
            if key.kind == Kind::Macro {
                idents.push(key.ident.copy(alloc)?)?;
            }
        }
    }
    Ok(idents)
}
