//! Numbered things.

ghost use Rattle.std.specs.Prelude.{◌≡◌, ◌⊎◌, true, Some, IfOk, OnOk, [], ◌∷◌, ◌++◌, option_copied, slice_get};

use helix_base::Memory;
use indexmap::IndexSet;
use std::alloc::Global;
use std::hash::Hash;
use std::marker::Model;

/// Things that are numbered as they are met. Contracts see their list.
#[derive(Drop)]
pub struct Numbered<S: Eq + Hash> {
    set: IndexSet<S>,
}

impl<S: Eq + Hash> Model for Numbered<S> {
    ghost use Rattle.std.specs.Prelude.{List};

    ghost Value = { List S };

    ghost view = { λ numbered. numbered.set.keys };
}

impl<S: Eq + Hash + Drop> Numbered<S> {
    /// Nothing yet.
    pub fn new(alloc: Global) -> Numbered<S>
        ensures { result ≡ [] }
    {
        Numbered {
            set: IndexSet::new(alloc),
        }
    }

    /// The thing with this number.
    pub fn get(&self, number: u32) -> Option<&S>
        ensures { option_copied result ≡ slice_get self.now number }
    {
        self.set.get_index(number as usize)
    }

    /// The number of a thing, which is added where none is equal to it.
    pub fn number(&mut self, thing: S) -> Result<u32, Memory>
        ensures number { IfOk result (λ number. (equal : S) × (slice_get self.new number ≡ Some equal)
            × (S.PartialEq.eq thing equal ≡ true)) }
        ensures added { OnOk result ((self.new ≡ self.old) ⊎ (self.new ≡ self.old ++ thing ∷ [])) }
    {
        let (number, _) = self.set.insert_full(thing)?;
        u32::try_from(number).map_err(|_| Memory)
    }
}
