ghost use Rattle.std.specs.Prelude.{◌≡◌, IfOk};

use odd_text::{NoMemory, TryCopy};
use std::alloc::Global;
use std::marker::Model;
use std::rc::Rc;

/// A value that its copies share.
#[derive(Debug, Drop)]
pub struct Shared<T> {
    inner: Rc<T>,
}

impl<T> Model for Shared<T> {
    ghost Value = { T };

    ghost coded = { T.code };

    ghost view = { λ s. s.inner.value };
}

impl<T: Drop> Shared<T> {
    /// The value, which its copies are to share. The only error is NoMemory, for want of memory.
    pub fn new(alloc: Global, value: T) -> Result<Shared<T>, NoMemory>
        ensures { IfOk result (λ made. made ≡ value) }
    {
        let inner = Rc::new(alloc, value)?;
        Ok(Shared { inner })
    }

    /// The value.
    pub fn get(&self) -> &T
        ensures { result.now ≡ self.now }
    {
        self.inner.as_ref()
    }
}

impl<T: Drop> TryCopy for Shared<T> {
    fn copy(&self, _alloc: Global) -> Result<Shared<T>, NoMemory> {
        let inner = self.inner.clone()?;
        Ok(Shared { inner })
    }
}
