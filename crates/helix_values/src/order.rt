//! The order of cells and of rows.

ghost use Rattle.std.specs.Prelude.{◌≡◌, ◌<◌, length, slice_index_or};
ghost use Rattle.helix_values.specs.declared.cell.Cell.TheVariants as cells;
ghost use Rattle.helix_values.specs.Class.{AreComparable, AreComparableRows};
ghost use Rattle.helix_values.specs.Order.{cell_cmp, row_cmp, text_cmp};
ghost use Rattle.helix_values.specs.View.{cell_of};

use crate::cell::CellRef;
use crate::row_buf::RowBuf;
use std::cmp::Ordering;

/// Compares two cells of one field.
pub fn cmp_cell(a: CellRef<'_>, b: CellRef<'_>) -> Ordering
    requires { AreComparable (cell_of a) (cell_of b) }
    ensures { result ≡ cell_cmp (cell_of a.entry) (cell_of b.entry) }
{
    match (a, b) {
        (CellRef::Null, CellRef::Null) => Ordering::Equal,
        (CellRef::Null, _) => Ordering::Greater,
        (_, CellRef::Null) => Ordering::Less,
        (CellRef::Bool(a), CellRef::Bool(b)) => a.cmp(&b),
        (CellRef::Number(a), CellRef::Number(b)) => a.cmp(&b),
        (CellRef::Moment(a), CellRef::Moment(b)) => a.cmp(&b),
        (CellRef::Text(a), CellRef::Text(b)) => cmp_text(a, b),
        _ => unreachable!(),
    }
}

/// The shorter text first, and texts of one length by their code points.
fn cmp_text(a: &[u32], b: &[u32]) -> Ordering
    ensures { result ≡ text_cmp a.now b.now }
{
    a.len().cmp(&b.len()).then(a.cmp(b))
}

/// Compares two rows of the same fields, by the first field in which they differ.
pub fn cmp_row(a: &RowBuf, b: &RowBuf) -> Ordering
    requires { AreComparableRows a.now b.now }
    ensures { result ≡ row_cmp a.now b.now }
{
    for i in 0..a.len() {
        match cmp_field(a, b, i) {
            Ordering::Equal => {}
            order => return order,
        }
    }
    Ordering::Equal
}

/// Compares the cells of one field of two rows.
fn cmp_field(a: &RowBuf, b: &RowBuf, i: usize) -> Ordering
    requires rows { AreComparableRows a.now b.now }
    requires field { i < length a.now }
    ensures { result ≡ cell_cmp (slice_index_or a.now i cells.Null) (slice_index_or b.now i cells.Null) }
{
    cmp_cell(a.slot(i).view(), b.slot(i).view())
}
