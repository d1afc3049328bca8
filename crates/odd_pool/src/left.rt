ghost use Rattle.std.specs.Prelude.{◌≡◌, ◌<◌, Bool, List, length, IfOk, OnOk};
ghost use Rattle.odd_pool.specs.Pattern.{Pattern, Leaves, empty, choice, group};
ghost use Rattle.odd_pool.specs.Pool.{pattern_at, kind_pattern, Grows, PartsBelow};
ghost use Rattle.odd_pool.specs.Left.{AllBelow, Begun, IsWalk, Stands, StandsForSome};

use crate::node::Kind;
use crate::pool::Pool;
use crate::walk::{Walk, Way};
use odd_patterns::Alphabet;
use odd_text::NoMemory;

impl<A: Alphabet> Pool<A> {
    // The position of a pattern that is made so.
    fn make(&mut self, kind: Kind<A::Leaf>) -> Result<usize, NoMemory>
        requires { PartsBelow kind (length self.old) }
        ensures within { IfOk result (λ made. made < length self.new) }
        ensures kept { Grows self.old self.new }
        ensures reads { IfOk result (λ made. (ps : List (Pattern A.Leaf)) → Grows self.new ps → pattern_at ps made ≡ kind_pattern ps kind) }
    {
        self.place(kind)
    }

    // The position of one pattern and then another.
    fn join(&mut self, first: usize, rest: usize) -> Result<usize, NoMemory>
        requires first { first < length self.old }
        requires rest { rest < length self.old }
        ensures within { IfOk result (λ made. made < length self.new) }
        ensures kept { Grows self.old self.new }
        ensures stands { IfOk result (λ made. (takes : A.Leaf → A.Symbol → Bool) → Stands takes self.new made (λ ps. group (pattern_at ps first) (pattern_at ps rest))) }
    {
        match self.kind(first) {
            Kind::Empty => Ok(rest),
            _ => match self.kind(rest) {
                Kind::Empty => Ok(first),
                _ => self.make(Kind::Group(first, rest)),
            },
        }
    }

    // The position of a pattern any number of times and then another, where the first is repeated.
    fn again(&mut self, repeated: usize, rest: usize) -> Result<usize, NoMemory>
        requires first { repeated < length self.old }
        requires rest { rest < length self.old }
        ensures within { IfOk result (λ made. made < length self.new) }
        ensures kept { Grows self.old self.new }
        ensures stands { IfOk result (λ made. (takes : A.Leaf → A.Symbol → Bool) → Stands takes self.new made (λ ps. group (choice empty (pattern_at ps repeated)) (pattern_at ps rest))) }
    {
        let nothing = self.make(Kind::Empty)?;
        let any = self.make(Kind::Choice(nothing, repeated))?;
        self.join(any, rest)
    }

    // Adds the patterns of which one matches what is left of the pattern at a position, with another behind it. What
    // was gone through is not gone through again, so a symbol takes time for the nodes of the pattern alone: each of
    // them is followed by one pattern.
    #[cycle(begin)]
    #[tactic(auto, using(crate::proofs::Walks::walk_grown))]
    fn begin(
        &mut self,
        alphabet: &A,
        at: usize,
        rest: usize,
        symbol: &A::Symbol,
        walk: &mut Walk,
    ) -> Result<(), NoMemory>
        requires at { at < length self.old }
        requires rest { rest < length self.old }
        requires walk { IsWalk (A.admits alphabet.now) symbol.now self.old walk.old.members.keys walk.old.ways.keys }
        ensures kept { Grows self.old self.new }
        ensures walk { OnOk result (IsWalk (A.admits alphabet.now) symbol.now self.new walk.new.members.keys walk.new.ways.keys) }
        ensures begun { OnOk result (Begun (A.admits alphabet.now) symbol.now self.new at rest walk.old.members.keys walk.new.members.keys) }
    {
        let way = Way { at, rest };
        if walk.has(way) {
            return Ok(());
        }
        self.enter(alphabet, at, rest, symbol, walk)?;
        walk.mark(way)
    }

    // The same, by the parts of the pattern. They are patterns that follow a leaf, so there are no more of them than
    // leaves.
    #[cycle(begin)]
    #[tactic(auto, using(crate::proofs::Walks::walk_grown))]
    fn enter(
        &mut self,
        alphabet: &A,
        at: usize,
        rest: usize,
        symbol: &A::Symbol,
        walk: &mut Walk,
    ) -> Result<(), NoMemory>
        requires at { at < length self.old }
        requires rest { rest < length self.old }
        requires walk { IsWalk (A.admits alphabet.now) symbol.now self.old walk.old.members.keys walk.old.ways.keys }
        ensures kept { Grows self.old self.new }
        ensures walk { OnOk result (IsWalk (A.admits alphabet.now) symbol.now self.new walk.new.members.keys walk.new.ways.keys) }
        ensures begun { OnOk result (Begun (A.admits alphabet.now) symbol.now self.new at rest walk.old.members.keys walk.new.members.keys) }
    {
        match self.kind(at) {
            Kind::Never => Ok(()),
            Kind::Empty => Ok(()),
            Kind::Leaf(leaf) => {
                if alphabet.takes(leaf, symbol) {
                    return walk.add(rest);
                }
                Ok(())
            }
            Kind::Choice(left, right) => {
                self.begin(alphabet, left, rest, symbol, walk)?;
                self.begin(alphabet, right, rest, symbol, walk)
            }
            Kind::Group(left, right) => {
                let behind = self.join(right, rest)?;
                self.begin(alphabet, left, behind, symbol, walk)?;
                if self.nullable(left) {
                    return self.begin(alphabet, right, rest, symbol, walk);
                }
                Ok(())
            }
            Kind::More(part) => {
                let behind = self.again(at, rest)?;
                self.begin(alphabet, part, behind, symbol, walk)
            }
        }
    }

    // The position of a pattern that matches what one of the members does, by halves, so that it adds no more to the
    // depth than the logarithm of their number.
    fn any_of(&mut self, members: &[usize]) -> Result<usize, NoMemory>
        requires members { AllBelow members.now (length self.old) }
        ensures within { IfOk result (λ made. made < length self.new) }
        ensures kept { Grows self.old self.new }
        ensures stands { IfOk result (λ made. (takes : A.Leaf → A.Symbol → Bool) → StandsForSome takes self.new made members.now) }
    {
        let count = members.len();
        if count < 2 {
            return self.only(members);
        }
        let (front, back) = members.split_at(count / 2);
        let first = self.any_of(front)?;
        let rest = self.any_of(back)?;
        self.make(Kind::Choice(first, rest))
    }

    // The same of one member at most.
    fn only(&mut self, members: &[usize]) -> Result<usize, NoMemory>
        requires count { length members.now < 2 }
        requires members { AllBelow members.now (length self.old) }
        ensures within { IfOk result (λ made. made < length self.new) }
        ensures kept { Grows self.old self.new }
        ensures stands { IfOk result (λ made. (takes : A.Leaf → A.Symbol → Bool) → StandsForSome takes self.new made members.now) }
    {
        match members.first() {
            Some(member) => Ok(*member),
            None => self.make(Kind::Never),
        }
    }

    /// The position of what is left of a pattern after a symbol: a pattern of the words that the given one matches with
    /// the symbol before them. All earlier positions keep their patterns, also after an error. The only error is
    /// NoMemory, for want of memory. It takes time and memory for the nodes of the pattern, where each part counts as
    /// often as it stands in it, and stack for its depth.
    pub fn derive(&mut self, alphabet: &A, at: usize, symbol: &A::Symbol) -> Result<usize, NoMemory>
        requires { at < length self.old }
        ensures within { IfOk result (λ left. left < length self.new) }
        ensures left { IfOk result (λ left. Leaves (A.admits alphabet.now) (pattern_at self.old at) symbol.now (pattern_at self.new left)) }
        ensures kept { Grows self.old self.new }
    {
        let nothing = self.make(Kind::Empty)?;
        let mut walk = Walk::new(self.allocator());
        self.begin(alphabet, at, nothing, symbol, &mut walk)?;
        let members = walk.in_order()?;
        self.any_of(members.as_slice())
    }
}
