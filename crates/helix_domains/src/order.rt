//! The order of cells of any class, and the cells that a mark admits.

ghost use Rattle.std.specs.Prelude.{◌≡◌, ◌↔◌, IsTrue};
ghost use Rattle.helix_values.specs.Marks.{IsAdmitted};
ghost use Rattle.helix_values.specs.Order.{cell_cmp, text_cmp, rank_of as rank};
ghost use Rattle.helix_values.specs.View.{cell_of};

use helix_values::{CellRef, Mark};
use std::cmp::Ordering;

/// Compares two cells, which may be of two classes.
pub fn order_of(a: CellRef<'_>, b: CellRef<'_>) -> Ordering
    ensures { result ≡ cell_cmp (cell_of a.entry) (cell_of b.entry) }
{
    match (a, b) {
        (CellRef::Bool(a), CellRef::Bool(b)) => a.cmp(&b),
        (CellRef::Number(a), CellRef::Number(b)) => a.cmp(&b),
        (CellRef::Moment(a), CellRef::Moment(b)) => a.cmp(&b),
        (CellRef::Text(a), CellRef::Text(b)) => order_of_texts(a, b),
        _ => rank_of(a).cmp(&rank_of(b)),
    }
}

/// The shorter text first, and texts of one length by their code points.
fn order_of_texts(a: &[u32], b: &[u32]) -> Ordering
    ensures { result ≡ text_cmp a.now b.now }
{
    a.len().cmp(&b.len()).then(a.cmp(b))
}

/// The place of a cell's class.
fn rank_of(cell: CellRef<'_>) -> u8
    ensures { result ≡ rank (cell_of cell.entry) }
{
    match cell {
        CellRef::Bool(_) => 0,
        CellRef::Number(_) => 1,
        CellRef::Moment(_) => 2,
        CellRef::Text(_) => 3,
        CellRef::Null => 4,
    }
}

/// Whether a mark admits a cell.
pub fn is_admitted(mark: Mark<'_>, cell: CellRef<'_>) -> bool
    ensures { IsTrue result ↔ IsAdmitted mark.entry (cell_of cell.entry) }
{
    match mark {
        Mark::Start => true,
        Mark::At(bound) => order_of(cell, bound).is_ge(),
        Mark::After(bound) => order_of(bound, cell).is_lt(),
    }
}
