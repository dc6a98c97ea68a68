//! Cells that are copied into a row of slots.

ghost use Rattle.std.specs.Prelude.{◌≡◌, length};
ghost use Rattle.std.specs.List.{All};
ghost use Rattle.helix_values.specs.Slot.{FitsSlot};

use helix_values::{Cell, RowBuf};

/// Sets all cells of a row.
pub fn set_cells(row: &mut RowBuf, cells: &[Cell])
    requires count { length row.old ≡ length cells.now }
    requires fits { All FitsSlot cells.now }
    ensures { row.new ≡ cells.now }
{
    for i in 0..cells.len() {
        row.set(i, cells[i].view());
    }
}
