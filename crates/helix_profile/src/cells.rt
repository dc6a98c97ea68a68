//! The cells of a row by their fields, and the null rule.

ghost use Rattle.std.specs.Prelude.{◌≡◌, ◌↔◌, IsTrue};
ghost use Rattle.helix_profile.specs.Satisfaction.{cell_at as cell_of_field, is_null as null, Signed};
ghost use Rattle.helix_values.specs.View.{cell_of};

use helix_values::{Cell, CellRef};

/// The cell of a field, or null where the row has none.
pub fn cell_at(row: &[Cell], field: u32) -> CellRef<'_>
    ensures { cell_of result ≡ cell_of_field row.now field }
{
    match row.get(field as usize) {
        Some(cell) => cell.view(),
        None => CellRef::Null,
    }
}

pub fn is_null(cell: CellRef<'_>) -> bool
    ensures { result ≡ null (cell_of cell.entry) }
{
    match cell {
        CellRef::Null => true,
        _ => false,
    }
}
