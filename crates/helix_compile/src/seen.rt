//! Numbers of states that have been seen.

ghost use Rattle.std.specs.Prelude.{◌≡◌, ◌⊎◌, OnOk, [], ◌∷◌, ◌++◌, Contains, slice_get};

use helix_base::Memory;
use indexmap::IndexSet;
use std::alloc::Global;
use std::marker::Model;

/// Numbers of states, each once, in the order in which they are first seen. Contracts see their list.
#[derive(Drop)]
pub struct Seen {
    set: IndexSet<u32>,
}

impl Model for Seen {
    ghost use Rattle.std.specs.Prelude.{List, ℕ};

    ghost Value = { List ℕ };

    ghost view = { λ seen. seen.set.keys };
}

impl Seen {
    /// Nothing yet.
    pub fn new(alloc: Global) -> Seen
        ensures { result ≡ [] }
    {
        Seen {
            set: IndexSet::new(alloc),
        }
    }

    /// The number at an index.
    pub fn get(&self, index: u32) -> Option<u32>
        ensures { result ≡ slice_get self.now index }
    {
        self.set.get_index(index as usize).copied()
    }

    /// Notes a number, unless it has been seen.
    pub fn note(&mut self, number: u32) -> Result<(), Memory>
        ensures seen { OnOk result (Contains self.new number) }
        ensures added { OnOk result ((self.new ≡ self.old) ⊎ (self.new ≡ self.old ++ number ∷ [])) }
    {
        self.set.insert(number)?;
        Ok(())
    }

    /// Forgets all numbers, and keeps the memory.
    pub fn clear(&mut self)
        ensures { self.new ≡ [] }
    {
        self.set.clear();
    }
}
