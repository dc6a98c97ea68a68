//! Whether a row fits the fields.

ghost use Rattle.std.specs.Prelude.{◌↔◌, IsTrue};
ghost use Rattle.helix_values.specs.View.{cell_of};
ghost use Rattle.helix_output.specs.Fitting.{FitsFields, FitsKind};

use helix_profile::Field;
use helix_values::{CellRef, Kind, RowBuf, in_universe};

/// Whether a row has one cell for each field, which fits its kind.
pub(crate) fn fits_fields(fields: &[Field], row: &RowBuf) -> bool
    ensures { IsTrue result ↔ FitsFields fields.now row.now }
{
    if row.len() != fields.len() {
        return false;
    }
    for i in 0..fields.len() {
        if !fits_kind(fields[i].kind, row.slot(i).view()) {
            return false;
        }
    }
    true
}

/// Whether a cell is null or a value of a kind.
fn fits_kind(kind: Kind, cell: CellRef<'_>) -> bool
    ensures { IsTrue result ↔ FitsKind kind (cell_of cell.entry) }
{
    match cell {
        CellRef::Null => true,
        _ => in_universe(kind, cell),
    }
}
