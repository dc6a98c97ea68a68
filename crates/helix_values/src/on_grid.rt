//! Values that are on a grid.

ghost use Rattle.std.specs.Prelude.{◌↔◌, ◌<◌, IsTrue};
ghost use Rattle.helix_values.specs.OnGrid.{IsOnGrid};
ghost use Rattle.helix_values.specs.View.{cell_of};

use crate::cell::CellRef;
use helix_ladders::{is_on_moment_grid, is_on_number_grid};

/// Whether a number or a moment is on the grid of a level of its ladder.
pub fn is_on_grid(level: u32, cell: CellRef<'_>) -> bool
    requires { level < 16 }
    ensures { IsTrue result ↔ IsOnGrid level (cell_of cell.entry) }
{
    match cell {
        CellRef::Number(units) => is_on_number_grid(level, units),
        CellRef::Moment(at) => is_on_moment_grid(level, i128::from(at)),
        _ => false,
    }
}
