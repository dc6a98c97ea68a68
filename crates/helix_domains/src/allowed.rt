//! Which of many values are allowed.

ghost use Rattle.std.specs.Prelude.{ℕ, ◌≡◌, ◌↔◌, ◌<◌, IsTrue, IfOk};
ghost use Rattle.std.specs.List.{All, Contains};
ghost use Rattle.helix_domains.specs.Domain.{PassesAtom, IsAllowed};
ghost use Rattle.helix_domains.specs.Inner.Listed.{AreKept};
ghost use Rattle.helix_domains.specs.Inner.Ready.{AreReady, HasCharacters, PassesChosen};
ghost use Rattle.helix_values.specs.View.{cell_of};
ghost use Rattle.helix_values.specs.declared.cell.Cell.{Cell as Value};

use crate::atom::SignedAtom;
use crate::ready::{Ready, all_ready, is_chosen, passes};
use helix_base::Memory;
use helix_values::{Cell, CellRef, Kind, in_universe};
use std::alloc::Global;

/// Whether a value passes each signed atom, where it passes the one that is chosen.
fn passes_all(
    atoms: &[SignedAtom],
    ready: &[Ready],
    chosen: Option<usize>,
    value: CellRef<'_>,
) -> bool
    requires ready { AreReady atoms.now ready.now }
    requires chosen { PassesChosen atoms.now chosen (cell_of value) }
    requires characters { HasCharacters (cell_of value) }
    ensures { IsTrue result ↔ All (λ signed. PassesAtom signed (cell_of value.entry)) atoms.now }
{
    for (index, signed) in atoms.iter().enumerate() {
        if is_chosen(chosen, index) {
            continue;
        }
        if !passes(signed, &ready[index], value) {
            return false;
        }
    }
    true
}

/// Whether a value is of the kind and passes each signed atom, where it passes the one that is chosen.
fn is_allowed(
    kind: Kind,
    atoms: &[SignedAtom],
    ready: &[Ready],
    chosen: Option<usize>,
    value: CellRef<'_>,
) -> bool
    requires ready { AreReady atoms.now ready.now }
    requires chosen { PassesChosen atoms.now chosen (cell_of value) }
    ensures { IsTrue result ↔ IsAllowed kind atoms.now (cell_of value.entry) }
{
    if !in_universe(kind, value) {
        return false;
    }
    passes_all(atoms, ready, chosen, value)
}

/// The cells of a list that are allowed, where all of them pass the signed atom that is chosen.
pub fn allowed_of(
    alloc: Global,
    kind: Kind,
    atoms: &[SignedAtom],
    chosen: Option<usize>,
    cells: &[Cell],
) -> Result<Vec<Cell>, Memory>
    requires { (v : Value) → Contains cells.now v → PassesChosen atoms.now chosen v }
    ensures { IfOk result (λ kept. AreKept (IsAllowed kind atoms.now) cells.now kept.items) }
{
    let ready = all_ready(alloc, atoms, chosen)?;
    let mut kept = Vec::new(alloc);
    for cell in cells {
        if is_allowed(kind, atoms, ready.as_slice(), chosen, cell.view()) {
            kept.push(cell.copy(alloc)?)?;
        }
    }
    Ok(kept)
}
