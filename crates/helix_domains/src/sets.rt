//! Values that are listed.

ghost use Rattle.std.specs.Prelude.{◌≡◌, ◌↔◌, ◌<◌, length, IfOk, IfSome};
ghost use Rattle.std.specs.List.{Contains};
ghost use Rattle.helix_domains.specs.Domain.{PassesAtom, IsAllowed};
ghost use Rattle.helix_domains.specs.Inner.Ready.{PassesChosen};
ghost use Rattle.helix_domains.specs.Inner.Values.{AreValuesOf};
ghost use Rattle.helix_values.specs.declared.cell.Cell.{Cell as Value};
ghost use Rattle.helix_values.specs.declared.kind.Kind.TheVariants as kinds;

use crate::allowed::allowed_of;
use crate::atom::SignedAtom;
use crate::listed::ascending;
use crate::values::Values;
use helix_base::Memory;
use helix_profile::Test;
use helix_values::{Cell, Kind};
use std::alloc::Global;

/// The members of a set that has the values that pass an atom, or `None` where the atom is no such set.
pub fn members_of(signed: &SignedAtom) -> Option<&[Cell]>
    ensures { IfSome result (λ members. (v : Value) → PassesAtom signed.now v ↔ Contains members.now v) }
{
    if !signed.sign {
        return None;
    }
    match &signed.atom.test {
        Test::EqualTo(operand) => Some(std::slice::from_ref(operand)),
        Test::InSet(members) => Some(members.as_slice()),
        _ => None,
    }
}

/// The index of the atom with the shortest such set, if any.
pub fn shortest_set(atoms: &[SignedAtom]) -> Option<usize>
    ensures { IfSome result (λ index. index < length atoms.now) }
{
    let mut least = usize::MAX;
    let mut found = None;
    for (index, signed) in atoms.iter().enumerate() {
        if let Some(members) = members_of(signed) {
            if members.len() < least {
                least = members.len();
                found = Some(index);
            }
        }
    }
    found
}

/// The allowed values, which are among some cells. All of these pass the signed atom that is chosen.
pub fn listed(
    alloc: Global,
    kind: Kind,
    atoms: &[SignedAtom],
    chosen: Option<usize>,
    cells: &[Cell],
) -> Result<Values, Memory>
    requires all { (v : Value) → IsAllowed kind atoms.now v → Contains cells.now v }
    requires chosen { (v : Value) → Contains cells.now v → PassesChosen atoms.now chosen v }
    ensures { IfOk result (AreValuesOf kind atoms.now) }
{
    let kept = allowed_of(alloc, kind, atoms, chosen, cells)?;
    Ok(Values::Listed(ascending(alloc, kept)?))
}

/// The allowed truth values.
pub fn truths(alloc: Global, atoms: &[SignedAtom]) -> Result<Values, Memory>
    ensures { IfOk result (AreValuesOf kinds.Boolean atoms.now) }
{
    let both = [Cell::Bool(false), Cell::Bool(true)];
    listed(alloc, Kind::Boolean, atoms, None, &both)
}
