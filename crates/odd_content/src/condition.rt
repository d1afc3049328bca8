ghost use Rattle.std.specs.Prelude.{◌≡◌, map, codes, IfOk};
ghost use Rattle.odd_tree.specs.Elements.{all_binds};
ghost use Rattle.odd_forms.specs.Words.{words_given as the_words_given};
ghost use Rattle.odd_content.specs.Condition.{condition_of};

use crate::content::Condition;
use odd_forms::{Excepted, read_excepted, words_given};
use odd_text::{Names, NoMemory, Words, sorted};
use odd_tree::{Bindings, Tree};
use std::alloc::Global;

/// The condition of an `anyElement` under the declarations in force in it, level by level. The only error is NoMemory, for
/// want of memory.
pub fn read_condition(
    alloc: Global,
    tree: &Tree,
    inside: &[&Bindings],
) -> Result<Condition, NoMemory>
    ensures { IfOk result (λ made. made ≡ condition_of (all_binds (map (λ b. b.now) inside.now)) (the_words_given tree.now (codes "require")) (the_words_given tree.now (codes "except"))) }
{
    let require = sorted(alloc, words_given(alloc, tree, "require")?)?;
    let except = words_given(alloc, tree, "except")?;
    let mut spaces = Words::new(alloc);
    let mut names = Names::new(alloc);
    for word in except.as_slice() {
        match read_excepted(alloc, inside, word)? {
            Excepted::Space(space) => spaces.push(space)?,
            Excepted::Name(name) => names.push(name)?,
            Excepted::Unbound => {}
        }
    }
    let spaces = sorted(alloc, spaces)?;
    let names = sorted(alloc, names)?;
    Ok(Condition {
        require,
        spaces,
        names,
    })
}
