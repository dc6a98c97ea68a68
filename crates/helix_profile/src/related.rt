//! What a relation says of two values, plainly.

ghost use Rattle.std.specs.Prelude.{ℤ, ◌↔◌, ◌<ℤ◌, ◌+ℤ◌, IsTrue};
ghost use Rattle.helix_profile.specs.Holds.{Compares, NumbersRelated, Related};
ghost use Rattle.helix_ladders.specs.Shift.{shifted as shifted_value};
ghost use Rattle.helix_values.specs.View.{cell_of};

use crate::compare::{compares, is_same};
use crate::relation::{Compare, Relation};
use helix_values::{CellRef, Offset, shifted};

/// Whether a relation holds of two values that aren't null.
pub fn related(relation: &Relation, x: CellRef<'_>, y: CellRef<'_>) -> bool
    ensures { IsTrue result ↔ Related relation.now (cell_of x.entry) (cell_of y.entry) }
{
    match (x, y) {
        (CellRef::Number(x), CellRef::Number(y)) => {
            numbers_related(relation.compare, relation.offset, x, y)
        }
        (CellRef::Moment(x), CellRef::Moment(y)) => {
            moments_related(relation.compare, relation.offset, x, y)
        }
        _ => is_same(x, y),
    }
}

fn numbers_related(compare: Compare, offset: Offset, x: i128, y: i128) -> bool
    ensures { IsTrue result ↔ NumbersRelated compare offset x y }
{
    match offset {
        Offset::Plain(units) => compares_with_sum(compare, x, y, units),
        _ => false,
    }
}

fn moments_related(compare: Compare, offset: Offset, x: i64, y: i64) -> bool
    ensures { IsTrue result ↔ Compares compare x (shifted_value offset y) }
{
    let x = i128::from(x);
    let y = i128::from(y);
    match offset {
        Offset::Plain(millis) => compares_with_sum(compare, x, y, millis),
        _ => compares(compare, x, shifted(offset, y)),
    }
}

/// Whether a number compares so with a sum, which may be out of range.
fn compares_with_sum(compare: Compare, x: i128, y: i128, offset: i128) -> bool
    ensures { IsTrue result ↔ Compares compare x (y +ℤ offset) }
{
    match y.checked_add(offset) {
        Some(sum) => compares(compare, x, sum),
        None => {
            if offset < 0 {
                is_upward(compare)
            } else {
                is_downward(compare)
            }
        }
    }
}

/// Whether a number that is above another one compares so with it.
fn is_upward(compare: Compare) -> bool
    ensures { (x y : ℤ) → y <ℤ x → IsTrue result ↔ Compares compare x y }
{
    match compare {
        Compare::Above | Compare::AtLeast => true,
        _ => false,
    }
}

/// Whether a number that is below another one compares so with it.
fn is_downward(compare: Compare) -> bool
    ensures { (x y : ℤ) → x <ℤ y → IsTrue result ↔ Compares compare x y }
{
    match compare {
        Compare::Below | Compare::AtMost => true,
        _ => false,
    }
}
