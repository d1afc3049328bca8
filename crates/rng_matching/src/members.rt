ghost use Rattle.std.specs.Prelude.{◌≡◌, IfOk};
ghost use Rattle.rng_matching.specs.Chars.{is_of_class as the_is_of_class, is_of_member as the_is_of_member, is_of_members as the_is_of_members};

use odd_text::NoMemory;
use rng_dialect::{Member, Members};
use std::alloc::Global;

/// Whether a class takes a character: by one of its members, or by none of them.
pub fn is_of_class(negated: bool, members: &Members, c: char) -> bool
    ensures { result ≡ the_is_of_class negated members.now c }
{
    is_of_members(members, c) != negated
}

// Whether one of the members takes the character.
fn is_of_members(members: &Members, c: char) -> bool
    ensures { result ≡ the_is_of_members members.now c }
{
    for member in members.as_slice() {
        if is_of_member(*member, c) {
            return true;
        }
    }
    false
}

fn is_of_member(member: Member, c: char) -> bool
    ensures { result ≡ the_is_of_member c member }
{
    match member {
        Member::Char(own) => c == own,
        Member::Range { low, high } => low <= c && c <= high,
    }
}

/// A copy of some members. The only error is NoMemory, for want of memory.
pub fn copied(alloc: Global, members: &Members) -> Result<Members, NoMemory>
    ensures { IfOk result (λ made. made ≡ members.now) }
{
    let mut made = Members::new(alloc);
    for member in members.as_slice() {
        made.push(*member)?;
    }
    Ok(made)
}
