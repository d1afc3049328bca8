ghost use Rattle.std.specs.Prelude.{◌≡◌, ℕ, max, map, IfOk};
ghost use Rattle.std.specs.List.Sorted.{IsNonDecreasingBy, IsPermutation};
ghost use Rattle.rng_matching.specs.Chars.{is_of_members, is_of_spans};
ghost use Rattle.rng_matching.specs.Spans.{raised, span_of as the_span_of};

use odd_text::NoMemory;
use rng_dialect::{Member, Members};
use std::alloc::Global;
use std::marker::Model;

/// The characters from one to another, both included.
#[derive(Clone, Copy)]
pub struct Span {
    pub low: char,
    pub top: char,
}

/// The members of a class, ready to be asked by a search: in rising order of the first character, where `top` is the greatest last
/// character of the member itself and of all before it. A clause sees the list of the spans.
#[derive(Drop)]
pub struct Spans {
    items: Vec<Span>,
}

impl Model for Spans {
    ghost use Rattle.std.specs.Prelude.{List};
    ghost use Rattle.std.specs.Coded.{coded_list, codes};
    ghost use Rattle.rng_matching.specs.Spans.{AreReady};
    ghost use Rattle.rng_matching.specs.contracts.spans.Span as span_row;
    ghost use Rattle.rng_matching.specs.declared.spans.Span.{Span};

    ghost Value = { List Span };

    ghost coded = { coded_list (Prim.hlevel (codes, span_row.the_row.coded)) };

    ghost view = { λ s. s.items.items };

    ghost invariant = { λ s. AreReady s.items.items };
}

impl Spans {
    /// The spans that have the characters of the members. The only error is NoMemory, for want of memory.
    pub fn of(alloc: Global, members: &Members) -> Result<Spans, NoMemory>
        ensures { IfOk result (λ made. (c : ℕ) → is_of_spans made c ≡ is_of_members members.now c) }
    {
        let mut items = unsorted(alloc, members)?;
        sort(&mut items);
        raise(&mut items);
        Ok(Spans { items })
    }

    /// Whether one of the spans has the character, in time for the logarithm of how many there are.
    pub fn holds(&self, c: char) -> bool
        ensures { result ≡ is_of_spans self.now c }
    {
        let items = self.items.as_slice();
        let end = items.partition_point(|span| span.low <= c);
        if end == 0 {
            return false;
        }
        c <= items[end - 1].top
    }
}

// The members as spans, in their order.
fn unsorted(alloc: Global, members: &Members) -> Result<Vec<Span>, NoMemory>
    ensures { IfOk result (λ made. made.items ≡ map the_span_of members.now) }
{
    let mut made = Vec::new(alloc);
    for member in members.as_slice() {
        made.push(span_of(*member))?;
    }
    Ok(made)
}

fn span_of(member: Member) -> Span
    ensures { result ≡ the_span_of member }
{
    match member {
        Member::Char(own) => Span { low: own, top: own },
        Member::Range { low, high } => Span { low, top: high },
    }
}

// Puts the spans in rising order of the first character.
fn sort(spans: &mut [Span])
    ensures rising { IsNonDecreasingBy (λ s. s.low) spans.new }
    ensures same { IsPermutation spans.old spans.new }
{
    spans.sort_unstable_by_key(|span| span.low);
}

// Has each span reach as far as the farthest before it.
fn raise(spans: &mut [Span])
    ensures { spans.new ≡ raised 0 spans.old }
{
    let mut top = '\0';
    for span in spans.iter_mut() {
        top = greater(top, span.top);
        span.top = top;
    }
}

fn greater(one: char, other: char) -> char
    ensures { result ≡ max one other }
{
    if one < other { other } else { one }
}
