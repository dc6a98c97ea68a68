//! Domains that are asked for all of their values.

ghost use Rattle.std.specs.Prelude.{◌≡◌, ◌↔◌, IsTrue, IfOk, IfSome};
ghost use Rattle.std.specs.List.{All};
ghost use Rattle.helix_domains.specs.Domain.{IsAtomFor};

use crate::tests::build::{Check, Value, cell, field, signed};
use crate::{Domain, SignedAtom, is_atom_for};
use helix_base::{Memory, Quiet, Steps};
use helix_values::{CellRef, Kind, Mark, Slot, in_universe};
use std::alloc::Global;

/// Whether each signed atom is one for a kind.
fn are_atoms_for(kind: Kind, atoms: &[SignedAtom]) -> bool
    ensures { IsTrue result ↔ All (IsAtomFor kind) atoms.now }
{
    atoms.iter().all(|signed| is_atom_for(kind, signed))
}

/// The domain of a kind with all atoms at once, or `None` where one isn't for the kind.
pub fn domain_of(
    alloc: Global,
    kind: Kind,
    checks: &[(Check<'_>, bool)],
) -> Result<Option<Domain>, Memory>
    ensures { IfOk result (λ found. IfSome found (λ domain. domain.field.kind ≡ kind)) }
{
    let atoms = signed(alloc, checks)?;
    let field = field(alloc, kind)?;
    if !are_atoms_for(field.kind, atoms.as_slice()) {
        return Ok(None);
    }
    Ok(Some(Domain::of(alloc, &field, atoms.as_slice())?))
}

/// Whether a slot holds a cell, the least value of a domain that isn't below it.
fn is_least(domain: &Domain, kind: Kind, cell: CellRef<'_>, slot: &Slot) -> bool
    requires { domain.now.field.kind ≡ kind }
{
    if !in_universe(kind, cell) {
        return false;
    }
    let mut other = Slot::new();
    let mut steps = Steps::new(Quiet);
    let found = domain.at_or_after(Mark::At(cell), &mut other, &mut steps);
    found && other.view() == cell && slot.view() == cell && domain.contains(cell)
}

/// Whether the questions for the next value, from where the last one was and by a mark, have one answer.
fn agrees(domain: &Domain, kind: Kind, cell: CellRef<'_>, found: bool, slot: &Slot) -> bool
    requires { domain.now.field.kind ≡ kind }
{
    if !in_universe(kind, cell) {
        return false;
    }
    let mut other = Slot::new();
    let mut steps = Steps::new(Quiet);
    let also = domain.at_or_after(Mark::After(cell), &mut other, &mut steps);
    if found {
        also && other.view() == slot.view()
    } else {
        !also && slot.view() == cell
    }
}

/// How many of these values a domain of a kind has, in this order and with none before or between them, and whether
/// there is none after them.
fn goes_through(
    alloc: Global,
    domain: &Domain,
    kind: Kind,
    values: &[Value<'_>],
) -> Result<(usize, bool), Memory>
    requires { domain.now.field.kind ≡ kind }
{
    let mut slot = Slot::new();
    let mut near = domain.near(alloc)?;
    let mut steps = Steps::new(Quiet);
    let mut found = domain.first(&mut slot, &mut near, &mut steps);
    for (i, value) in values.iter().enumerate() {
        let cell = cell(alloc, *value)?;
        if !found {
            return Ok((i, false));
        }
        if !is_least(domain, kind, cell.view(), &slot) {
            return Ok((i, false));
        }
        found = domain.next(&mut slot, &mut near, &mut steps);
        if !agrees(domain, kind, cell.view(), found, &slot) {
            return Ok((i, false));
        }
    }
    Ok((values.len(), !found))
}

/// The domain of a kind to which these atoms are added one by one, or `None` where one isn't for the kind.
fn added(alloc: Global, kind: Kind, checks: &[(Check<'_>, bool)]) -> Result<Option<Domain>, Memory>
    ensures { IfOk result (λ found. IfSome found (λ domain. domain.field.kind ≡ kind)) }
{
    let field = field(alloc, kind)?;
    let mut domain = Domain::open(alloc, &field)?;
    let atoms = signed(alloc, checks)?;
    for signed in atoms.as_slice() {
        if !is_atom_for(kind, signed) {
            return Ok(None);
        }
        domain.add(&signed.atom, signed.sign)?;
    }
    Ok(Some(domain))
}

/// Whether a domain of a kind that is made by steps has these values, and no others.
pub fn has_when_added(
    alloc: Global,
    kind: Kind,
    checks: &[(Check<'_>, bool)],
    values: &[Value<'_>],
) -> Result<bool, Memory> {
    match added(alloc, kind, checks)? {
        Some(domain) => Ok(goes_through(alloc, &domain, kind, values)? == (values.len(), true)),
        None => Ok(false),
    }
}

/// The same of a domain with all these atoms.
pub fn values_of(
    alloc: Global,
    kind: Kind,
    checks: &[(Check<'_>, bool)],
    values: &[Value<'_>],
) -> Result<(usize, bool), Memory> {
    match domain_of(alloc, kind, checks)? {
        Some(domain) => goes_through(alloc, &domain, kind, values),
        None => Ok((usize::MAX, false)),
    }
}
