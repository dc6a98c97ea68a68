//! Whether a row is good, plainly. It is made for small inputs.

ghost use Rattle.std.specs.Prelude.{◌↔◌, IsTrue};
ghost use Rattle.helix_profile.specs.Good.{IsCellOf, AreCellsOf, IsGood};
ghost use Rattle.helix_values.specs.View.{cell_of};

use crate::constraint::Constraint;
use crate::field::Field;
use crate::profile::Profile;
use crate::satisfaction::all_satisfied;
use helix_values::{Cell, CellRef, in_universe};

/// Whether a row is good for a profile.
pub fn is_good(profile: &Profile, row: &[Cell]) -> bool
    ensures { IsTrue result ↔ IsGood profile.now row.now }
{
    is_good_for(profile.fields(), profile.constraints(), row)
}

/// Whether a row is good for fields and constraints, which needn't be a valid profile.
pub fn is_good_for(fields: &[Field], constraints: &[Constraint], row: &[Cell]) -> bool
    ensures { IsTrue result ↔ IsGood (record { fields = fields.now; constraints = constraints.now }) row.now }
{
    are_cells_of(fields, row) && all_satisfied(constraints, row, true)
}

/// Whether a row has a cell for each field, which is the field's.
fn are_cells_of(fields: &[Field], row: &[Cell]) -> bool
    ensures { IsTrue result ↔ AreCellsOf fields.now row.now }
{
    match (fields.split_first(), row.split_first()) {
        (Some((field, fields)), Some((cell, row))) => {
            is_cell_of(field, cell.view()) && are_cells_of(fields, row)
        }
        (None, None) => true,
        _ => false,
    }
}

/// Whether a cell is null in a nullable field or a value of the field's universe.
fn is_cell_of(field: &Field, cell: CellRef<'_>) -> bool
    ensures { IsTrue result ↔ IsCellOf field.now (cell_of cell.entry) }
{
    match cell {
        CellRef::Null => field.nullable,
        _ => in_universe(field.kind, cell),
    }
}
