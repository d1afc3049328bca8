ghost use Rattle.std.specs.Prelude.{◌≡◌, ◌<◌, ◌⊎◌, ℕ, length, slice_get, Some, IfOk};
ghost use Rattle.odd_pool.specs.Pattern.{Leaves};
ghost use Rattle.odd_pool.specs.Pool.{pattern_at, Grows};
ghost use Rattle.odd_pool.specs.Memory.{NoStep, Remembers};

use crate::pool::Pool;
use odd_patterns::Alphabet;
use odd_text::NoMemory;
use std::alloc::Global;
use std::marker::Model;

/// An alphabet whose symbols have numbers. Every leaf takes symbols of one number alike.
pub trait Numbered: Alphabet {
    /// The number of a symbol.
    ghost number_of: { Self → Self.Symbol → ℕ };

    /// The number of the symbol.
    fn number(&self, symbol: &Self::Symbol) -> usize
        ensures { result ≡ number_of self.now symbol.now };

    /// Symbols of one number are alike to every leaf.
    ghost alike: { (a : Self) (s t : Self.Symbol) → number_of a s ≡ number_of a t → (l : Self.Leaf) → Self.admits a l s ≡ Self.admits a l t };
}

/// What is left of the pattern at `at` after any symbol of the number `number` is the pattern at `to`.
#[derive(Clone, Copy, Debug)]
pub struct Step {
    pub at: usize,
    pub number: usize,
    pub to: usize,
}

/// Some of the steps that were made, in places of a fixed number: a later step takes the place of an earlier one. A
/// clause sees the list of the places.
#[derive(Drop)]
pub struct Memory {
    slots: Vec<Option<Step>>,
}

impl Model for Memory {
    ghost use Rattle.std.specs.Prelude.{List, Option};
    ghost use Rattle.odd_pool.specs.declared.memory.Step.{Step};

    ghost Value = { List (Option Step) };

    ghost view = { λ m. m.slots.items };
}

impl Memory {
    /// A memory with places for `room` steps, and with none yet; all are used where that is a power of two. The only error is
    /// NoMemory, for want of memory.
    #[tactic(auto, using(crate::proofs::Right::no_more))]
    pub fn new(alloc: Global, room: usize) -> Result<Memory, NoMemory>
        ensures { IfOk result NoStep }
    {
        let mut slots = Vec::new(alloc);
        for _ in 0..room {
            slots.push(None)?;
        }
        Ok(Memory { slots })
    }

    // The position that is remembered.
    fn find(&self, at: usize, number: usize) -> Option<usize>
        ensures { (to : ℕ) → result ≡ Some to → (k : ℕ) × (e : Step) × (slice_get self.now k ≡ Some (Some e)) × (e.at ≡ at) × (e.number ≡ number) × (e.to ≡ to) }
    {
        let count = self.slots.len();
        if count == 0 {
            return None;
        }
        let place = place_of(at, number, count);
        match self.slots[place] {
            Some(step) => {
                if step.at == at && step.number == number {
                    return Some(step.to);
                }
                None
            }
            None => None,
        }
    }

    // Remembers a step, in place of what stood there.
    fn put(&mut self, step: Step)
        ensures { (k : ℕ) (e : Step) → slice_get self.new k ≡ Some (Some e) → (e ≡ step) ⊎ (slice_get self.old k ≡ Some (Some e)) }
    {
        let count = self.slots.len();
        if count == 0 {
            return;
        }
        let place = place_of(step.at, step.number, count);
        self.slots[place] = Some(step);
    }
}

// The place of a step among so many. All are used where they are a power of two.
fn place_of(at: usize, number: usize, count: usize) -> usize
    requires { 0 < count }
    ensures { result < count }
{
    at.wrapping_mul(31).wrapping_add(number) & (count - 1)
}

/// The position of what is left of a pattern after a symbol, by memory, or by its derivative, which is then remembered:
/// a pattern of the words that the given one matches with the symbol before them. What the memory holds stays right, and
/// all earlier positions keep their patterns, both also after an error. The only error is NoMemory, for want of memory.
/// It takes stack for the depth of the pattern.
pub fn derive_by<A: Numbered>(
    pool: &mut Pool<A>,
    memory: &mut Memory,
    alphabet: &A,
    at: usize,
    symbol: &A::Symbol,
) -> Result<usize, NoMemory>
    requires at { at < length pool.old }
    requires right { Remembers (A.admits alphabet.now) (A.number_of alphabet.now) pool.old memory.old }
    ensures within { IfOk result (λ left. left < length pool.new) }
    ensures left { IfOk result (λ left. Leaves (A.admits alphabet.now) (pattern_at pool.old at) symbol.now (pattern_at pool.new left)) }
    ensures kept { Grows pool.old pool.new }
    ensures right { Remembers (A.admits alphabet.now) (A.number_of alphabet.now) pool.new memory.new }
{
    let number = alphabet.number(symbol);
    match memory.find(at, number) {
        Some(to) => Ok(to),
        None => {
            let to = pool.derive(alphabet, at, symbol)?;
            memory.put(Step { at, number, to });
            Ok(to)
        }
    }
}
