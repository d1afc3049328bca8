ghost use Rattle.std.specs.Prelude.{◌≡◌, [], ◌∷◌, ◌++◌, ◌<◌, ◌≤◌, ◌↔◌, length, slice_get, IfOk, OnOk, OnErr, IsNone, IsTrue};
ghost use Rattle.std.specs.Option.{option_copied};

use crate::copy::TryCopy;
use crate::memory::NoMemory;
use crate::order::ExactOrd;
use std::alloc::Global;
use std::cmp::Ordering;
use std::marker::Model;

/// A list. It takes 16 bytes where it stands, and more once it has items: most lists of a tree have none.
#[derive(Debug, Drop)]
pub struct Seq<T> {
    alloc: Global,
    // none before the first push
    items: Option<Box<Vec<T>>>,
}

impl<T> Model for Seq<T> {
    ghost use Rattle.std.specs.Prelude.{List};
    ghost use Rattle.std.specs.Coded.{coded_list};
    ghost use Rattle.odd_text.specs.Seq.{boxed_items};

    ghost Value = { List T };

    ghost coded = { coded_list T.code };

    ghost view = { λ it. boxed_items it.items };
}

impl<T> Seq<T> {
    /// The empty list. It takes no memory before the first `push`.
    pub fn new(alloc: Global) -> Self
        ensures { result ≡ [] }
    {
        Seq { alloc, items: None }
    }

    /// How many items it has.
    pub fn len(&self) -> usize
        ensures { result ≡ length self.now }
    {
        self.as_slice().len()
    }

    /// Whether it has no item.
    pub fn is_empty(&self) -> bool
        ensures { IsTrue result ↔ (self.now ≡ []) }
    {
        self.as_slice().is_empty()
    }

    /// The item at a place, counted from 0.
    pub fn get(&self, at: usize) -> Option<&T>
        ensures value { option_copied result ≡ slice_get self.now at }
        ensures none { IsNone result ↔ (length self.now ≤ at) }
    {
        self.as_slice().get(at)
    }

    /// Gives back the memory that is kept for items to come.
    pub fn fit(&mut self)
        ensures { self.new ≡ self.old }
    {
        if let Some(items) = &mut self.items {
            items.shrink_to_fit();
        }
    }

    /// The items themselves, in their order.
    pub fn into_items(self) -> Vec<T>
        ensures { result.items ≡ self }
    {
        match self.items {
            Some(items) => Box::into_inner(items),
            None => Vec::new(self.alloc),
        }
    }

    /// The items in their order.
    pub fn as_slice(&self) -> &[T]
        ensures { result.now ≡ self.now }
    {
        match &self.items {
            Some(items) => items.as_slice(),
            None => &[],
        }
    }
}

impl<T: Drop> Seq<T> {
    /// A list of these items, in no more memory than they take. The only error is NoMemory, for want of memory.
    pub fn of(alloc: Global, mut items: Vec<T>) -> Result<Seq<T>, NoMemory>
        ensures { IfOk result (λ made. made ≡ items.items) }
    {
        items.shrink_to_fit();
        Ok(Seq {
            alloc,
            items: Some(Box::new(alloc, items)?),
        })
    }

    /// A list of the items of another, in no more memory than they take. The other is empty then, and keeps its memory. The only
    /// error is NoMemory, for want of memory; the items stay where they are then.
    pub fn moved(alloc: Global, items: &mut Vec<T>) -> Result<Seq<T>, NoMemory>
        ensures ok { IfOk result (λ made. made ≡ items.old.items) }
        ensures empty { OnOk result (items.new.items ≡ []) }
        ensures err { OnErr result (items.new.items ≡ items.old.items) }
    {
        let mut exact = Box::new(alloc, Vec::with_capacity(alloc, items.len())?)?;
        exact.append(items)?;
        Ok(Seq {
            alloc,
            items: Some(exact),
        })
    }

    /// Puts an item at the end. Without memory the list stays as it was.
    pub fn push(&mut self, item: T) -> Result<(), NoMemory>
        ensures ok { OnOk result (self.new ≡ self.old ++ item ∷ []) }
        ensures err { OnErr result (self.new ≡ self.old) }
    {
        if let Some(items) = &mut self.items {
            items.push(item)?;
            return Ok(());
        }
        let mut items = Box::new(self.alloc, Vec::new(self.alloc))?;
        items.push(item)?;
        self.items = Some(items);
        Ok(())
    }
}

// Lists are equal, and stand in order, as their items do one after another.

impl<T: PartialEq> PartialEq for Seq<T> {
    ghost use Rattle.std.specs.Cmp.Lexicographic.{pointwise, lists_per};

    ghost eq = { pointwise T.eq };

    ghost laws = { lists_per T.laws };

    fn eq(&self, other: &Seq<T>) -> bool {
        self.as_slice() == other.as_slice()
    }
}

impl<T: Eq> Eq for Seq<T> {
    ghost use Rattle.std.specs.Cmp.Lexicographic.{lists_equiv};

    ghost laws = { lists_equiv T.Eq.laws };
}

impl<T: PartialOrd> PartialOrd for Seq<T> {
    ghost use Rattle.std.specs.Cmp.Lexicographic.{slice_partial_cmp, lists_po};

    ghost partial_cmp = { slice_partial_cmp T.partial_cmp };

    ghost laws = { lists_po T.PartialOrd.laws };

    fn partial_cmp(&self, other: &Seq<T>) -> Option<Ordering> {
        self.as_slice().partial_cmp(other.as_slice())
    }
}

impl<T: Ord> Ord for Seq<T> {
    ghost use Rattle.std.specs.Cmp.Lexicographic.{slice_cmp, lists_agrees, lists_ties, lists_total};

    ghost cmp = { slice_cmp T.cmp };

    ghost total = { lists_total T.total };

    ghost matches_partial_cmp = { λ x y. lists_agrees T.matches_partial_cmp x y };

    ghost matches_eq = { λ x y. lists_ties T.cmp T.matches_eq x y };

    fn cmp(&self, other: &Seq<T>) -> Ordering {
        self.as_slice().cmp(other.as_slice())
    }
}

impl<T: ExactOrd> ExactOrd for Seq<T> {
    ghost use Rattle.std.specs.FinMap.{slice_cmp-IsAntisymmetric};

    ghost exact = { λ x y same. slice_cmp-IsAntisymmetric T.exact x y same };
}

impl<T: TryCopy> TryCopy for Seq<T> {
    fn copy(&self, alloc: Global) -> Result<Seq<T>, NoMemory> {
        let mut made = Seq::new(alloc);
        for item in self.as_slice() {
            made.push(item.copy(alloc)?)?;
        }
        Ok(made)
    }
}
