//! Cells, read from their texts.

ghost use Rattle.std.specs.Prelude.{◌≡◌, ◌≢◌, ◌^◌, ◌≤◌, ℤ, Bool, nat_abs, Some, IfSome, IfNone, IfOk, IsErrOf, MatchResult};
ghost use Rattle.helix_json.specs.Numbers.{IsUnits};
ghost use Rattle.helix_values.specs.declared.cell.Cell.{Cell as Value};
ghost use Rattle.helix_texts.specs.declared.fault.CellFault.TheVariants as faults;
ghost use Rattle.helix_values.specs.Class.{class_of, class_of_kind};
ghost use Rattle.helix_texts.specs.Spelling.{ReadsAs, Spells};
ghost use Rattle.helix_texts.specs.Texts.{truth_text, cell_text as text_of_cell};
ghost use Rattle.helix_values.specs.Universe.{InUniverse};
ghost use Rattle.helix_values.specs.View.{cell_of};

use crate::fault::CellFault;
use crate::moments::moment_of;
use helix_base::{Memory, Text};
use helix_json::{is_number, number_units};
use helix_values::{Cell, CellRef, Kind, in_universe};
use std::alloc::Global;

/// The value of a kind that a text spells. [`CellFault::NotOfKind`] comes where it spells none.
pub fn read_cell(alloc: Global, kind: Kind, text: &Text) -> Result<Cell, CellFault>
    ensures value { IfOk result (Spells kind text.now) }
    ensures refused { IsErrOf result faults.NotOfKind → (c : Value) → ¬ Spells kind text.now c }
    ensures written { (c : Value) → InUniverse kind c → text.now ≡ text_of_cell kind c
        → MatchResult result (λ read. read ≡ c) (λ fault. fault ≡ faults.Memory) }
{
    let Some(cell) = spelled(kind, text) else {
        return Err(CellFault::NotOfKind);
    };
    if !in_universe(kind, cell) {
        return Err(CellFault::NotOfKind);
    }
    Ok(owned(alloc, cell, text)?)
}

/// What a text spells for a kind, whether or not its universe has it.
fn spelled(kind: Kind, text: &Text) -> Option<CellRef<'_>>
    ensures some { IfSome result (λ cell. ReadsAs text.now (cell_of cell)) }
    ensures class { IfSome result (λ cell. class_of (cell_of cell) ≡ Some (class_of_kind kind)) }
    ensures none { IfNone result ((c : Value) → InUniverse kind c → ¬ ReadsAs text.now c) }
{
    match kind {
        Kind::Boolean => match truth_of(text.codes()) {
            Some(truth) => Some(CellRef::Bool(truth)),
            None => None,
        },
        Kind::Integer | Kind::Decimal => match number_of(text) {
            Some(units) => Some(CellRef::Number(units)),
            None => None,
        },
        Kind::Date | Kind::DateTime => match moment_of(text) {
            Some(at) => Some(CellRef::Moment(at)),
            None => None,
        },
        Kind::Text(_) | Kind::Code(_) => Some(CellRef::Text(text.codes())),
    }
}

/// The truth value that a text is.
fn truth_of(codes: &[u32]) -> Option<bool>
    ensures some { IfSome result (λ truth. codes.now ≡ truth_text truth) }
    ensures none { IfNone result ((truth : Bool) → codes.now ≢ truth_text truth) }
{
    if codes == [116, 114, 117, 101].as_slice() {
        Some(true)
    } else if codes == [102, 97, 108, 115, 101].as_slice() {
        Some(false)
    } else {
        None
    }
}

/// The number that a text is, in units of 10^-15.
fn number_of(text: &Text) -> Option<i128>
    ensures some { IfSome result (IsUnits text.now) }
    ensures none { IfNone result ((units : ℤ) → nat_abs units ≤ 10 ^ 35 → ¬ IsUnits text.now units) }
{
    if is_number(text) {
        number_units(text)
    } else {
        None
    }
}

/// The borrowed cell, owned. A text is that of the cell.
fn owned(alloc: Global, cell: CellRef<'_>, text: &Text) -> Result<Cell, Memory>
    requires { ReadsAs text.now (cell_of cell) }
    ensures { IfOk result (λ own. own ≡ cell_of cell.entry) }
{
    Ok(match cell {
        CellRef::Null => Cell::Null,
        CellRef::Bool(truth) => Cell::Bool(truth),
        CellRef::Number(units) => Cell::Number(units),
        CellRef::Moment(millis) => Cell::Moment(millis),
        CellRef::Text(_) => Cell::Text(text.copy(alloc)?),
    })
}
