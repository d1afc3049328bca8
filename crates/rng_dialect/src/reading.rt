ghost use Rattle.std.specs.Prelude.{◌≡◌, ℕ, Err, IfOk};
ghost use Rattle.std.specs.Str.{chars};
ghost use Rattle.rng_dialect.specs.Dialect.{IsNoPatternAt, IsPattern, SpellsRegex};
ghost use Rattle.rng_dialect.specs.declared.regex.Regex.{Regex};

use crate::reader::PatternReader;
use crate::refusal::PatternRefusal;
use crate::regex::Regex;
use odd_text::Text;
use std::alloc::Global;

/// The pattern of the dialect that a text spells (a part of XML Schema, Part 2, appendix F), as the tree of its branches, pieces
/// and atoms. BadPattern comes exactly where the text spells none, or one with a size over 20,000 or with over 60 levels of
/// parentheses: with the length in bytes of the longest front of the text that begins some pattern of any size. NoMemory is for
/// want of memory.
pub fn read_pattern(alloc: Global, text: &Text) -> Result<Regex, PatternRefusal>
    ensures ok { IfOk result (IsPattern (chars text.now)) }
    // No text spells two patterns.
    ensures one { IfOk result (λ r. (other : Regex) → SpellsRegex (chars text.now) other → other ≡ r) }
    ensures bad { (at : ℕ) → result ≡ Err (PatternRefusal.BadPattern at) → IsNoPatternAt (chars text.now) at }
{
    let text = text.as_str();
    let mut reader = PatternReader::new(alloc);
    for (at, c) in text.char_indices() {
        if !reader.take(c)? {
            return Err(PatternRefusal::BadPattern { at: at as u64 });
        }
    }
    reader.finish()?.ok_or(PatternRefusal::BadPattern {
        at: text.len() as u64,
    })
}
