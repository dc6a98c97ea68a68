//! Cells that are the same, and values that compare.

ghost use Rattle.std.specs.Prelude.{◌≡◌, ◌↔◌, IsTrue, Contains};
ghost use Rattle.helix_profile.specs.Holds.{Compares, CellsCompare};
ghost use Rattle.helix_values.specs.View.{cell_of};

use crate::relation::Compare;
use helix_values::{Cell, CellRef};

/// Whether two cells are the same.
pub fn is_same(a: CellRef<'_>, b: CellRef<'_>) -> bool
    ensures { IsTrue result ↔ (cell_of a.entry ≡ cell_of b.entry) }
{
    match (a, b) {
        (CellRef::Null, CellRef::Null) => true,
        (CellRef::Bool(a), CellRef::Bool(b)) => a == b,
        (CellRef::Number(a), CellRef::Number(b)) => a == b,
        (CellRef::Moment(a), CellRef::Moment(b)) => a == b,
        (CellRef::Text(a), CellRef::Text(b)) => a == b,
        _ => false,
    }
}

/// Whether a value is a member of a set.
pub fn is_member(members: &[Cell], value: CellRef<'_>) -> bool
    ensures { IsTrue result ↔ Contains members.now (cell_of value.entry) }
{
    for member in members {
        if is_same(value, member.view()) {
            return true;
        }
    }
    false
}

/// Whether two numbers, or two moments, compare so.
pub fn cells_compare(compare: Compare, a: CellRef<'_>, b: CellRef<'_>) -> bool
    ensures { IsTrue result ↔ CellsCompare compare (cell_of a.entry) (cell_of b.entry) }
{
    match (a, b) {
        (CellRef::Number(a), CellRef::Number(b)) => compares(compare, a, b),
        (CellRef::Moment(a), CellRef::Moment(b)) => compares(compare, i128::from(a), i128::from(b)),
        _ => false,
    }
}

/// Whether two whole numbers compare so.
pub fn compares(compare: Compare, x: i128, y: i128) -> bool
    ensures { IsTrue result ↔ Compares compare x y }
{
    match compare {
        Compare::Equal => x == y,
        Compare::Above => x > y,
        Compare::AtLeast => x >= y,
        Compare::Below => x < y,
        Compare::AtMost => x <= y,
    }
}
