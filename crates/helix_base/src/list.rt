//! The list type of all crates.

ghost use Rattle.std.specs.Prelude.{◌≡◌, [], ◌∷◌, ◌++◌, ◌<◌, Some, length, slice_get, slice_set, IfOk, OnErr, OnOk};

use crate::copy::TryCopy;
use crate::memory::Memory;
use std::alloc::Global;
use std::marker::Model;

/// A list that grows at its end. Contracts see the list of its items.
#[derive(Debug, Drop)]
pub struct List<T> {
    items: Vec<T>,
}

/// Bytes, as of a file or a line.
pub type Bytes = List<u8>;

/// Numbers below 2^32, as code points and positions.
pub type Numbers32 = List<u32>;

impl<T> Model for List<T> {
    ghost use Rattle.std.specs.Prelude.{List as Items};

    ghost Value = { Items T };

    ghost view = { λ list. list.items.items };
}

impl<T> List<T> {
    /// The empty list.
    pub fn new(alloc: Global) -> List<T>
        ensures { result ≡ [] }
    {
        List {
            items: Vec::new(alloc),
        }
    }

    /// The list of the items of a `Vec`.
    pub fn from_vec(items: Vec<T>) -> List<T>
        ensures { result ≡ items.items }
    {
        List { items }
    }

    /// The items in order.
    pub fn as_slice(&self) -> &[T]
        ensures { result.now ≡ self.now }
    {
        self.items.as_slice()
    }

    /// The allocator that the list grows by. Contracts see none of allocators.
    pub fn allocator(&self) -> Global {
        *self.items.allocator()
    }
}

impl<T: Drop> List<T> {
    /// Appends one item.
    pub fn push(&mut self, item: T) -> Result<(), Memory>
        ensures ok { OnOk result (self.new ≡ self.old ++ item ∷ []) }
        ensures err { OnErr result (self.new ≡ self.old) }
    {
        self.items.push(item)?;
        Ok(())
    }

    /// Puts an item in the place of another one, and hands that back.
    pub fn replace(&mut self, index: usize, item: T) -> T
        requires { index < length self.old }
        ensures old { slice_get self.old index ≡ Some result }
        ensures new { self.new ≡ slice_set self.old index item }
    {
        std::mem::replace(&mut self.items[index], item)
    }

    /// Moves the items of another list to the end of this one. On `Err`, this one is unchanged.
    pub fn append(&mut self, more: List<T>) -> Result<(), Memory>
        ensures ok { OnOk result (self.new ≡ self.old ++ more) }
        ensures err { OnErr result (self.new ≡ self.old) }
    {
        let List { mut items } = more;
        self.items.append(&mut items)?;
        Ok(())
    }
}

impl<T: TryCopy + Drop> List<T> {
    /// An equal list, with a copy of each item.
    pub fn copy(&self, alloc: Global) -> Result<List<T>, Memory>
        ensures { IfOk result (λ copy. copy ≡ self.now) }
    {
        let mut items = Vec::with_capacity(alloc, self.items.len())?;
        for item in self.as_slice() {
            items.push(item.try_copy(alloc)?)?;
        }
        Ok(List { items })
    }
}

impl<T: TryCopy + Drop> TryCopy for List<T> {
    fn try_copy(&self, alloc: Global) -> Result<List<T>, Memory> {
        self.copy(alloc)
    }
}
