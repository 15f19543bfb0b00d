//! Values that can be copied where there is memory.

ghost use Rattle.std.specs.Prelude.{IfOk};
ghost use Rattle.std.specs.List.{AllZip};

use super::NoMemory;
use std::alloc::Global;

/// A value that can be copied where there is memory.
pub trait Twin: Sized {
    /// Whether two values are seen as the same.
    ghost same: { Self → Self → Type 0 };

    /// A value that is seen as the old one, which stays as it is.
    fn copy(&self, alloc: Global) -> Result<Self, NoMemory>
        ensures { IfOk result (λ twin. same twin self.now) };
}

/// A copy of each value, in order, where there is memory for all of them.
pub fn copy_all<T: Twin + Drop>(alloc: Global, items: &[T]) -> Result<Vec<T>, NoMemory>
    ensures { IfOk result (λ twins. AllZip T.same twins.items items.now) }
{
    let mut twins = Vec::with_capacity(alloc, items.len())?;
    for item in items {
        let twin = item.copy(alloc)?;
        twins.push(twin)?;
    }
    Ok(twins)
}
