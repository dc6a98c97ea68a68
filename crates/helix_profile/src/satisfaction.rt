//! Whether a row satisfies a constraint, plainly. It is made for small inputs.

ghost use Rattle.std.specs.Prelude.{◌≡◌, ◌↔◌, IsTrue, ◌&&◌, ◌||◌};
ghost use Rattle.helix_profile.specs.Satisfaction.{cell_at as cell_of_field, is_null as null, UnlessNull, Signed, TestSatisfied, RelationSatisfied, Satisfies, AllSatisfied, AnySatisfied};
ghost use Rattle.helix_profile.specs.Holds.{Holds};
ghost use Rattle.helix_values.specs.View.{cell_of};

use crate::cells::{cell_at, is_null};
use crate::constraint::Constraint;
use crate::holds::holds;
use crate::related::related;
use crate::relation::Relation;
use crate::test::Test;
use helix_values::{Cell, CellRef};

/// Whether a row satisfies a constraint, or with a false sign its negation.
#[cycle(satisfies)]
pub fn satisfies(constraint: &Constraint, row: &[Cell], sign: bool) -> bool
    ensures { IsTrue result ↔ Satisfies constraint.now row.now sign }
{
    match constraint {
        Constraint::Atom(atom) => test_satisfied(&atom.test, cell_at(row, atom.field), sign),
        Constraint::Related(relation) => relation_satisfied(
            relation,
            cell_at(row, relation.left),
            cell_at(row, relation.right),
            sign,
        ),
        Constraint::Not(negated) => satisfies(negated.get(), row, !sign),
        Constraint::AllOf(parts) => {
            if sign {
                all_satisfied(parts.as_slice(), row, true)
            } else {
                any_satisfied(parts.as_slice(), row, false)
            }
        }
        Constraint::AnyOf(parts) => {
            if sign {
                any_satisfied(parts.as_slice(), row, true)
            } else {
                all_satisfied(parts.as_slice(), row, false)
            }
        }
        Constraint::If(condition, then, otherwise) => {
            let met = satisfies(condition.get(), row, true);
            let unmet = satisfies(condition.get(), row, false);
            let consequent = satisfies(then.get(), row, sign);
            match otherwise {
                None => either_both(met, consequent, unmet, sign),
                Some(other) => {
                    let alternative = satisfies(other.get(), row, sign);
                    either_both(met, consequent, unmet, alternative)
                }
            }
        }
    }
}

/// Whether a row satisfies each constraint of a list, with a sign.
#[cycle(satisfies)]
pub fn all_satisfied(constraints: &[Constraint], row: &[Cell], sign: bool) -> bool
    ensures { IsTrue result ↔ AllSatisfied constraints.now row.now sign }
{
    for constraint in constraints {
        if !satisfies(constraint, row, sign) {
            return false;
        }
    }
    true
}

#[cycle(satisfies)]
fn any_satisfied(constraints: &[Constraint], row: &[Cell], sign: bool) -> bool
    ensures { IsTrue result ↔ AnySatisfied constraints.now row.now sign }
{
    for constraint in constraints {
        if satisfies(constraint, row, sign) {
            return true;
        }
    }
    false
}

fn either_both(a: bool, b: bool, c: bool, d: bool) -> bool
    ensures { result ≡ ((a && b) || (c && d)) }
{
    if a && b { true } else { c && d }
}

/// Whether a cell satisfies a test, with a sign.
fn test_satisfied(test: &Test, cell: CellRef<'_>, sign: bool) -> bool
    ensures { IsTrue result ↔ TestSatisfied test.now (cell_of cell.entry) sign }
{
    match test {
        Test::IsNull(wanted) => is_null(cell) == (*wanted == sign),
        _ => plain_satisfied(test, cell, sign),
    }
}

fn plain_satisfied(test: &Test, cell: CellRef<'_>, sign: bool) -> bool
    ensures { IsTrue result ↔ UnlessNull (cell_of cell.entry) (Signed sign (Holds test.now (cell_of cell.entry))) }
{
    if is_null(cell) {
        true
    } else {
        holds(test, cell) == sign
    }
}

/// Whether two cells satisfy a relation, with a sign.
fn relation_satisfied(relation: &Relation, x: CellRef<'_>, y: CellRef<'_>, sign: bool) -> bool
    ensures { IsTrue result ↔ RelationSatisfied relation.now (cell_of x.entry) (cell_of y.entry) sign }
{
    if is_null(x) || is_null(y) {
        true
    } else {
        related(relation, x, y) == sign
    }
}
