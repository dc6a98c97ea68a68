//! Copies that may run out of memory.

ghost use Rattle.std.specs.Prelude.{◌≡◌, IfOk};

use crate::memory::Memory;
use std::alloc::Global;

/// A value that can be copied, deeply, where there is memory. Each `Copy` type is one; a type that owns memory
/// implements the trait by its own `copy`.
pub trait TryCopy {
    /// An equal value.
    fn try_copy(&self, alloc: Global) -> Result<Self, Memory>
        ensures { IfOk result (λ copy. copy ≡ self.now) };
}

impl<T: Copy> TryCopy for T {
    fn try_copy(&self, _alloc: Global) -> Result<T, Memory> {
        Ok(*self)
    }
}
