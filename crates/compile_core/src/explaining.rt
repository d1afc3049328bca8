ghost use Rattle.std.specs.Prelude.{◌≡◌, ℕ, Err, Some, IfOk};
ghost use Rattle.odd_text.specs.declared.key.Key.{Key as AKey};
ghost use Rattle.odd_text.specs.declared.offence.Offence.{Offence as AnOffence};
ghost use Rattle.odd_text.specs.declared.offence.Who.TheVariants as the_who;
ghost use Rattle.odd_library.specs.declared.library.Component.TheVariants as the_component;
ghost use Rattle.odd_meaning.specs.Rules.{Breaks};
ghost use Rattle.compile_core.specs.Account.{IsAccount, IsAskedOffence};

use crate::lines::account;
use odd_classes::{Checked, LibraryRefusal, check};
use odd_library::{Component, Library, OddRefusal};
use odd_text::{Kind, NoMemory, Offence, Text, TryCopy, Who};
use std::alloc::Global;

// No element is held at the ident that was asked for.
const NOT_HELD: u8 = 21;

/// The account of an element of a library that breaks no rule, each line ended by a line feed, in this order:
///
/// - `element IDENT`;
/// - `name {NAMESPACE}NAME`, as it is called in documents;
/// - `module MODULE`, unless that is empty;
/// - `member CLASS` for each class that it is a member of, by its own memberships or through classes of classes, in rising order;
/// - `attribute IDENT USAGE GIVER` for each attribute that it offers, in order of ident. The usage is `req` where the element has
///   to have it, and else `opt`. The giver is the class that gives it, of several the least, or `-` where the element sets it.
///
/// Offence is answered where no element is held at the ident: of file 0 and rule 21, with the ident that was asked for. NoMemory is
/// answered for want of memory.
pub fn explain(alloc: Global, library: &Library, ident: &Text) -> Result<Text, OddRefusal>
    requires { (key : AKey) (rule : ℕ) → Breaks library.now key rule → ⊥ }
    ensures account { IfOk result (IsAccount library.now ident.now) }
    ensures offence { (offence : AnOffence) → result ≡ Err (OddRefusal.Offence offence) → IsAskedOffence library.now ident.now offence }
{
    match check(alloc, library) {
        Ok(checked) => explain_checked(alloc, &checked, ident),
        Err(LibraryRefusal::Rule { key, rule }) => Err(OddRefusal::Offence(Offence {
            file: 0,
            who: Who::Part(key),
            rule,
        })),
        Err(LibraryRefusal::NoMemory) => Err(OddRefusal::NoMemory),
    }
}

/// The same of a library that was checked, by what was found then.
pub fn explain_checked(
    alloc: Global,
    library: &Checked<'_>,
    ident: &Text,
) -> Result<Text, OddRefusal>
    ensures account { IfOk result (IsAccount library.now ident.now) }
    ensures offence { (offence : AnOffence) → result ≡ Err (OddRefusal.Offence offence) → IsAskedOffence library.now ident.now offence }
{
    let Some(Component::Element(part)) = library.library().find_by(Kind::Element, ident) else {
        return Err(OddRefusal::Offence(not_held(alloc, ident)?));
    };
    let classes = library.memberships(alloc, ident)?;
    let Some(offers) = library.offered(alloc, ident)? else {
        unreachable!()
    };
    Ok(account(alloc, ident, part, &classes, &offers)?)
}

// The offence that no element is held at the ident.
fn not_held(alloc: Global, ident: &Text) -> Result<Offence, NoMemory>
    ensures { IfOk result (λ made. made ≡ record { file = 0; who = the_who.Asked ident.now; rule = 21 }) }
{
    let who = Who::Asked(ident.copy(alloc)?);
    Ok(Offence {
        file: 0,
        who,
        rule: NOT_HELD,
    })
}
