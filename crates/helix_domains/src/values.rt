//! The values of a domain.

ghost use Rattle.std.specs.Prelude.{◌≡◌, IfOk};
ghost use Rattle.std.specs.List.{All};
ghost use Rattle.helix_domains.specs.Domain.{IsAtomFor};
ghost use Rattle.helix_domains.specs.Inner.Values.{AreValuesOf};

use crate::atom::SignedAtom;
use crate::grids::{moments, numbers};
use crate::sets::{listed, members_of, shortest_set, truths};
use crate::texts::texts;
use helix_base::Memory;
use helix_grids::Grid;
use helix_values::{Calendar, Cells, Decades, Kind};
use helix_words::Words;
use std::alloc::Global;

/// The values of a field that pass signed atoms, in the form that questions are answered from.
#[derive(Debug, Drop)]
pub enum Values {
    /// In ascending order.
    Listed(Cells),
    Numbers(Grid<Decades>),
    Moments(Grid<Calendar>),
    Texts(Words),
}

/// The values of a kind that pass each signed atom.
pub fn values_of(alloc: Global, kind: Kind, atoms: &[SignedAtom]) -> Result<Values, Memory>
    requires { All (IsAtomFor kind) atoms.now }
    ensures { IfOk result (AreValuesOf kind atoms.now) }
{
    if let Some(index) = shortest_set(atoms) {
        if let Some(members) = members_of(&atoms[index]) {
            return listed(alloc, kind, atoms, Some(index), members);
        }
    }
    match kind {
        Kind::Boolean => truths(alloc, atoms),
        Kind::Integer => numbers(alloc, Kind::Integer, 15, atoms),
        Kind::Decimal => numbers(alloc, Kind::Decimal, 0, atoms),
        Kind::Date => moments(alloc, Kind::Date, 4, atoms),
        Kind::DateTime => moments(alloc, Kind::DateTime, 0, atoms),
        Kind::Text(_) | Kind::Code(_) => texts(alloc, kind, atoms),
    }
}
