ghost use Rattle.std.specs.Prelude.{◌≡◌, ◌↔◌, IsTrue};

use crate::copy::TryCopy;
use crate::memory::NoMemory;
use crate::order::ExactOrd;
use crate::seq::Seq;
use crate::text::Text;
use std::alloc::Global;

/// An expanded name of Namespaces in XML 1.0: a namespace, empty where there is none, and a local name. The order is by
/// namespace, and then by local name.
#[derive(Debug, Drop, PartialEq, Eq, PartialOrd, Ord)]
pub struct Name {
    pub ns: Text,
    pub local: Text,
}

/// A list of names.
pub type Names = Seq<Name>;

/// A prefix, empty for the default namespace, and the namespace that it is bound to.
#[derive(Debug, Drop, PartialEq, Eq)]
pub struct Bind {
    pub prefix: Text,
    pub ns: Text,
}

/// The bindings that are open at a place. Of one prefix the last is in force.
pub type Scope = Seq<Bind>;

impl Name {
    /// Whether both are one name: equal namespaces and equal local names.
    pub fn same(&self, other: &Name) -> bool
        ensures { IsTrue result ↔ (self.now ≡ other.now) }
    {
        self.ns == other.ns && self.local == other.local
    }
}

impl TryCopy for Name {
    fn copy(&self, alloc: Global) -> Result<Name, NoMemory> {
        let ns = self.ns.copy(alloc)?;
        let local = self.local.copy(alloc)?;
        Ok(Name { ns, local })
    }
}

impl ExactOrd for Name {
    ghost use Rattle.odd_text.specs.NameOrder.{name_exact};

    ghost exact = { name_exact };
}

impl TryCopy for Bind {
    fn copy(&self, alloc: Global) -> Result<Bind, NoMemory> {
        let prefix = self.prefix.copy(alloc)?;
        let ns = self.ns.copy(alloc)?;
        Ok(Bind { prefix, ns })
    }
}
