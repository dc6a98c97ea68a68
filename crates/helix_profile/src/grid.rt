//! Grids of any level.

ghost use Rattle.std.specs.Prelude.{◌↔◌, ◌≡◌, ◌≤◌, ◌^◌, ◌<◌, IsTrue};
ghost use Rattle.helix_ladders.specs.Grids.{IsOnNumberGrid};
ghost use Rattle.helix_values.specs.OnGrid.{IsOnGrid};
ghost use Rattle.helix_values.specs.View.{cell_of};

use helix_values::{CellRef, is_on_grid};

/// Whether a number or a moment is on the grid of a level. A number's ladder ends at 15, and the
/// powers of ten go on; a moment's ends at 6, and every level above it means years.
pub fn is_on_level(level: u32, value: CellRef<'_>) -> bool
    ensures { IsTrue result ↔ IsOnGrid level (cell_of value.entry) }
{
    if level < 16 {
        is_on_grid(level, value)
    } else {
        is_far_up(level, value)
    }
}

fn is_far_up(level: u32, value: CellRef<'_>) -> bool
    requires { 16 ≤ level }
    ensures { IsTrue result ↔ IsOnGrid level (cell_of value.entry) }
{
    match value {
        CellRef::Number(units) => is_multiple(level, units),
        CellRef::Moment(_) => is_on_grid(6, value),
        _ => false,
    }
}

/// Whether a number of units is a multiple of a power of ten.
#[tactic(auto, using(crate::proofs::Powers::only_zero))]
fn is_multiple(level: u32, units: i128) -> bool
    ensures { IsTrue result ↔ IsOnNumberGrid level units }
{
    let size = units.unsigned_abs();
    if level < 39 {
        size % 10_u128.pow(level) == 0
    } else {
        size == 0
    }
}
