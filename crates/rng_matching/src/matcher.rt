ghost use Rattle.std.specs.Prelude.{◌≡◌, ◌<◌, ◌↔◌, IfOk, IsTrue, ℕ, List, length};
ghost use Rattle.std.specs.Str.{chars as chars_of};
ghost use Rattle.odd_pool.specs.Memory.{Remembers};
ghost use Rattle.odd_pool.specs.Pool.{Grows, pattern_at};
ghost use Rattle.rng_dialect.specs.Matching.{Matches};
ghost use Rattle.rng_matching.specs.Searched.{admits};
ghost use Rattle.rng_matching.specs.Staying.{Stay};
ghost use Rattle.rng_matching.specs.Machine.{IsMatchedBy, LeadsTo};

use crate::pattern::pattern_of;
use crate::searched::{Searched, over_searched};
use crate::staying::Staying;
use odd_pool::{Memory, Pool, derive_by};
use odd_text::NoMemory;
use rng_dialect::Regex;
use std::alloc::Global;
use std::marker::Model;

/// A pattern of values made ready for any number of texts. What was found for one text is remembered for the next ones. A clause
/// sees the sets that the atoms became and the pattern that it matches by.
#[derive(Drop)]
pub struct Matcher {
    chars: Searched,
    pool: Pool<Searched>,
    memory: Memory,
    staying: Staying,
    start: usize,
}

impl Model for Matcher {
    ghost use Rattle.std.specs.Prelude.{◌<◌, ℕ, List, length};
    ghost use Rattle.std.specs.Coded.{coded_list, coded_ℕ, coded×, codes};
    ghost use Rattle.odd_pool.specs.Code.{pattern_code};
    ghost use Rattle.odd_pool.specs.Memory.{Remembers};
    ghost use Rattle.odd_pool.specs.Pattern.{Pattern};
    ghost use Rattle.odd_pool.specs.Pool.{pattern_at};
    ghost use Rattle.rng_matching.specs.contracts.searched.Set as set_row;
    ghost use Rattle.rng_matching.specs.Searched.{admits};
    ghost use Rattle.rng_matching.specs.Staying.{Stay};
    ghost use Rattle.rng_matching.specs.declared.searched.Set.{Set};

    ghost Value = { List Set × Pattern ℕ };

    ghost coded = { coded× (coded_list (Prim.hlevel (codes, set_row.the_row.coded))) (pattern_code coded_ℕ) };

    ghost view = { λ m. (m.chars.sets, pattern_at m.pool m.start) };

    ghost invariant = { λ m. (m.start < length m.pool) × Remembers (admits m.chars.sets) (λ c. c) m.pool m.memory × Stay (admits m.chars.sets) m.pool m.staying.known.items };
}

impl Matcher {
    /// A matcher of the texts that match a pattern of values (XML Schema, Part 2, appendix F), with places for so many steps that
    /// it remembers. The only error is NoMemory, for want of memory or for more than 2^32 atoms. It takes stack for the depth of
    /// the pattern, as `pattern_of` says it.
    pub fn new(alloc: Global, regex: &Regex, room: usize) -> Result<Matcher, NoMemory>
        ensures { IfOk result (λ made. (cs : List ℕ) → IsMatchedBy made cs ↔ Matches regex.now cs) }
    {
        let made = pattern_of(alloc, regex)?;
        let chars = Searched::of(alloc, &made.chars.classes)?;
        let pat = over_searched(alloc, &made.pat)?;
        let mut pool = Pool::new(alloc);
        let start = pool.put(&pat)?;
        let memory = Memory::new(alloc, room)?;
        let staying = Staying::new(alloc)?;
        Ok(Matcher {
            chars,
            pool,
            memory,
            staying,
            start,
        })
    }

    /// Whether the text matches, all of it. The only error is NoMemory, for want of memory.
    pub fn is_match(&mut self, text: &str) -> Result<bool, NoMemory>
        ensures same { self.new ≡ self.old }
        ensures answer { IfOk result (λ yes. IsTrue yes ↔ IsMatchedBy self.old (chars_of text.now)) }
    {
        let left = after(
            &self.chars,
            &mut self.pool,
            &mut self.memory,
            &mut self.staying,
            self.start,
            text,
        )?;
        Ok(self.pool.nullable(left))
    }
}

// The position of what is left of a pattern after the characters of a text.
fn after(
    chars: &Searched,
    pool: &mut Pool<Searched>,
    memory: &mut Memory,
    staying: &mut Staying,
    start: usize,
    text: &str,
) -> Result<usize, NoMemory>
    requires start { start < length pool.old }
    requires right { Remembers (admits chars.now.sets) (λ c. c) pool.old memory.old }
    requires stay { Stay (admits chars.now.sets) pool.old staying.old.known.items }
    ensures within { IfOk result (λ left. left < length pool.new) }
    ensures kept { Grows pool.old pool.new }
    ensures right { Remembers (admits chars.now.sets) (λ c. c) pool.new memory.new }
    ensures stay { Stay (admits chars.now.sets) pool.new staying.new.known.items }
    ensures left { IfOk result (λ left. LeadsTo (admits chars.now.sets) (pattern_at pool.old start) (chars_of text.now) (pattern_at pool.new left)) }
{
    let mut at = start;
    let mut rest = text.chars();
    'text: while let Some(c) = rest.next() {
        let to = derive_by(pool, memory, chars, at, &c)?;
        if to == at {
            staying.note(at, c);
            rest = staying.past(at, rest.as_str()).chars();
        }
        at = to;
    }
    Ok(at)
}
