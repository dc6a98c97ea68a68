//! The values of a field that pass signed atoms.

ghost use Rattle.std.specs.Prelude.{◌≡◌, ◌↔◌, [], ◌∷◌, ◌++◌, IsTrue, IfOk, OnOk, OnErr};
ghost use Rattle.std.specs.Bool.{OnTrue, OnFalse};
ghost use Rattle.std.specs.List.{All};
ghost use Rattle.helix_domains.specs.Asking.{AsksOnce, most_moves};
ghost use Rattle.helix_domains.specs.Domain.{IsAtomFor, IsInDomain};
ghost use Rattle.helix_domains.specs.Form.{HasForm};
ghost use Rattle.helix_domains.specs.Near.{HasRoomNear, IsNear, IsNextAnswer};
ghost use Rattle.helix_words.specs.Questions.{IsLeastAnswer};
ghost use Rattle.helix_values.specs.Class.{class_of_kind};
ghost use Rattle.helix_values.specs.Counts.{IsMarkOf};
ghost use Rattle.helix_values.specs.View.{cell_of};

use crate::atom::{SignedAtom, SignedAtoms, copy_atoms};
use crate::near::Near;
use crate::question::{has_value, least_value};
use crate::values::{Values, values_of};
use crate::walk::{first_value, near_of, next_value};
use helix_base::{Ledger, Memory, Steps, Unit};
use helix_profile::{Atom, Field};
use helix_values::{CellRef, Mark, Slot};
use std::alloc::Global;
use std::marker::Model;

/// The values of a field's universe that pass signed atoms. Contracts see the field, the atoms, and the form in which
/// the values are at hand.
#[derive(Debug, Drop)]
pub struct Domain {
    field: Field,
    atoms: SignedAtoms,
    values: Values,
}

impl Model for Domain {
    ghost use Rattle.helix_domains.specs.Domain.{Restricted};

    ghost Value = { Restricted };

    ghost use Rattle.helix_domains.specs.Inner.Values.{IsDomainOf, form_of};
    ghost use Rattle.helix_domains.specs.RestrictedCode.{restricted_code};

    ghost coded = { restricted_code };

    ghost view = { λ domain. record {
      field = domain.field;
      atoms = domain.atoms;
      form = form_of domain.values;
    } };

    ghost invariant = { λ domain. IsDomainOf domain.field.kind domain.atoms domain.values };
}

impl Domain {
    /// The values of a field that pass all these signed atoms.
    pub fn of(alloc: Global, field: &Field, atoms: &[SignedAtom]) -> Result<Domain, Memory>
        requires { All (IsAtomFor field.now.kind) atoms.now }
        ensures field { IfOk result (λ domain. domain.field ≡ field.now) }
        ensures atoms { IfOk result (λ domain. domain.atoms ≡ atoms.now) }
    {
        let values = values_of(alloc, field.kind, atoms)?;
        let atoms = copy_atoms(alloc, atoms)?;
        Ok(Domain {
            field: field.copy(alloc)?,
            atoms,
            values,
        })
    }

    /// All values of a field.
    pub fn open(alloc: Global, field: &Field) -> Result<Domain, Memory>
        ensures field { IfOk result (λ domain. domain.field ≡ field.now) }
        ensures atoms { IfOk result (λ domain. domain.atoms ≡ []) }
    {
        Domain::of(alloc, field, &[])
    }

    /// Leaves the values that pass an atom or, with a false sign, fail it. On `Err` the domain is as it was.
    pub fn add(&mut self, atom: &Atom, sign: bool) -> Result<(), Memory>
        requires { IsAtomFor self.old.field.kind (record { atom = atom.now; sign = sign }) }
        ensures field { self.new.field ≡ self.old.field }
        ensures atoms { OnOk result (self.new.atoms ≡ self.old.atoms ++ record { atom = atom.now; sign = sign } ∷ []) }
        ensures err { OnErr result (self.new ≡ self.old) }
    {
        let alloc = self.atoms.allocator();
        let mut atoms = self.atoms.copy(alloc)?;
        let atom = atom.copy(alloc)?;
        atoms.push(SignedAtom { atom, sign })?;
        self.values = values_of(alloc, self.field.kind, atoms.as_slice())?;
        self.atoms = atoms;
        Ok(())
    }

    /// Whether a value is one of the domain's. It takes no memory. No clause says what it costs: on texts that aren't
    /// listed about as much as a question.
    pub fn contains(&self, value: CellRef<'_>) -> bool
        ensures { IsTrue result ↔ IsInDomain self.now (cell_of value.entry) }
    {
        has_value(self.field.kind, &self.values, value)
    }

    /// Puts the least value that a mark admits into a slot. Where there is none, it answers false, and the slot is as
    /// it was. It takes no memory.
    pub fn at_or_after<L: Ledger>(
        &self,
        mark: Mark<'_>,
        out: &mut Slot,
        steps: &mut Steps<L>,
    ) -> bool
        requires { IsMarkOf (class_of_kind self.now.field.kind) mark }
        ensures answer { IsLeastAnswer (IsInDomain self.now) mark.entry result out.old out.new }
        ensures asked { AsksOnce L.IsNoted (most_moves (class_of_kind self.now.field.kind)) steps.old steps.new }
    {
        steps.tick(Unit::Domain);
        least_value(self.field.kind, &self.values, mark, out, steps)
    }
    /// Room for what is kept near a value of the domain.
    pub fn near(&self, alloc: Global) -> Result<Near, Memory>
        ensures room { IfOk result (HasRoomNear self.now.form) }
        ensures form { HasForm (IsInDomain self.now) self.now.form }
    {
        near_of(alloc, &self.values)
    }

    /// Puts the least value into a slot, and `near` is then at it. Where there is none, it answers false, and both are
    /// as they were. It takes no memory.
    pub fn first<L: Ledger>(&self, slot: &mut Slot, near: &mut Near, steps: &mut Steps<L>) -> bool
        requires { HasRoomNear self.now.form near.old }
        ensures answer { IsLeastAnswer (IsInDomain self.now) Mark.Start result slot.old slot.new }
        ensures near { OnTrue result (IsNear self.now near.new slot.new) }
        ensures room { HasRoomNear self.now.form near.new }
        ensures stays { OnFalse result (near.new ≡ near.old) }
        ensures asked { AsksOnce L.IsNoted (most_moves (class_of_kind self.now.field.kind)) steps.old steps.new }
    {
        steps.tick(Unit::Domain);
        first_value(self.field.kind, &self.values, slot, near, steps)
    }

    /// Makes a slot that holds a value of the domain the least one above it, and `near` goes along. Where there is
    /// none, it answers false, and both are as they were. It takes no memory, and less time than
    /// [`at_or_after`](Domain::at_or_after).
    pub fn next<L: Ledger>(&self, slot: &mut Slot, near: &mut Near, steps: &mut Steps<L>) -> bool
        requires { IsNear self.now near.old slot.old }
        ensures answer { IsNextAnswer (IsInDomain self.now) result slot.old slot.new }
        ensures near { IsNear self.now near.new slot.new }
        ensures stays { OnFalse result (near.new ≡ near.old) }
        ensures asked { AsksOnce L.IsNoted (most_moves (class_of_kind self.now.field.kind)) steps.old steps.new }
    {
        steps.tick(Unit::Domain);
        next_value(self.field.kind, &self.values, slot, near, steps)
    }
}
