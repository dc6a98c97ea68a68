//! Numbers and moments as whole numbers on a line.

ghost use Rattle.std.specs.Prelude.{ℤ, ◌≡◌, ◌≢◌, ◌↔◌, ◌≤ℤ◌, IfSome, IfNone, IfOk};
ghost use Rattle.std.specs.List.{Contains};
ghost use Rattle.helix_domains.specs.Inner.Line.{cell_on, class_on, IsFirstAdmitted, AreNotAdmitted};
ghost use Rattle.helix_values.specs.Counts.{IsMarkOf};
ghost use Rattle.helix_values.specs.Marks.{IsAdmitted};
ghost use Rattle.helix_values.specs.View.{cell_of};

use helix_base::Memory;
use helix_grids::Numbers;
use helix_values::{Cell, CellRef, Mark};
use std::alloc::Global;

/// The cells of one class, each a whole number.
#[derive(Clone, Copy, Debug, PartialEq, Eq)]
pub enum Line {
    /// In units of 10^-15.
    Numbers,
    /// In milliseconds.
    Moments,
}

/// The whole number of a cell, or `None` where it isn't on the line.
#[inline(always)]
pub fn units_on(line: Line, cell: CellRef<'_>) -> Option<i128>
    ensures some { IfSome result (λ units. cell_of cell.entry ≡ cell_on line units) }
    ensures none { IfNone result ((units : ℤ) → cell_of cell.entry ≢ cell_on line units) }
{
    match (line, cell) {
        (Line::Numbers, CellRef::Number(units)) => Some(units),
        (Line::Moments, CellRef::Moment(at)) => Some(i128::from(at)),
        _ => None,
    }
}

/// The whole numbers of those cells of a list that are on the line.
pub fn units_of(alloc: Global, line: Line, cells: &[Cell]) -> Result<Numbers, Memory>
    ensures { IfOk result (λ all. (units : ℤ) → Contains all units ↔ Contains cells.now (cell_on line units)) }
{
    let mut all = Numbers::new(alloc);
    for cell in cells {
        if let Some(units) = units_on(line, cell.view()) {
            all.push(units)?;
        }
    }
    Ok(all)
}

/// The least whole number whose cell a mark admits, or `None` where it admits none.
pub fn first_units(line: Line, mark: Mark<'_>) -> Option<i128>
    requires { IsMarkOf (class_on line) mark }
    ensures some { IfSome result (IsFirstAdmitted line mark.entry) }
    ensures none { IfNone result (AreNotAdmitted line mark.entry) }
{
    match mark {
        Mark::Start => Some(i128::MIN),
        Mark::At(bound) => units_on(line, bound),
        Mark::After(bound) => match units_on(line, bound) {
            Some(units) => units.checked_add(1),
            None => None,
        },
    }
}
