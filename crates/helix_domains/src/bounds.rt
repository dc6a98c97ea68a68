//! The tests of a grid that a signed atom comes to.

ghost use Rattle.std.specs.Prelude.{ℤ, ◌≡◌, ◌≢◌, ◌↔◌, IsTrue, IfOk};
ghost use Rattle.std.specs.List.{Contains};
ghost use Rattle.helix_domains.specs.Domain.{PassesAtom};
ghost use Rattle.helix_domains.specs.Inner.Line.{cell_on, class_on, ladder_on, IsTestOn};
ghost use Rattle.helix_grids.specs.Tests.{Passes, NamesLevelBelow};
ghost use Rattle.helix_profile.specs.Holds.{Compares, CellsCompare};
ghost use Rattle.helix_profile.specs.Satisfaction.{Signed};
ghost use Rattle.helix_profile.specs.Validity.{IsBound, IsLevel};
ghost use Rattle.helix_profile.specs.declared.relation.Compare.TheVariants as compare;
ghost use Rattle.helix_values.specs.Universe.{IsDecimal};

use crate::atom::SignedAtom;
use crate::line::{Line, units_of, units_on};
use helix_base::Memory;
use helix_grids::{GridTest, Numbers};
use helix_profile::{Compare, Test};
use helix_values::Cell;
use std::alloc::Global;

/// The test for the cells of a list, or with a false sign for all others.
fn members_test(alloc: Global, line: Line, members: &[Cell], sign: bool) -> Result<GridTest, Memory>
    ensures exact { IfOk result (λ test. (units : ℤ) → Passes (ladder_on line) test units
        ↔ Signed sign (Contains members.now (cell_on line units))) }
    ensures level { IfOk result (NamesLevelBelow (ladder_on line).levels) }
{
    let numbers = units_of(alloc, line, members)?;
    if sign {
        Ok(GridTest::OneOf(numbers))
    } else {
        Ok(GridTest::NoneOf(numbers))
    }
}

/// The test that all numbers pass, or none.
fn constant(alloc: Global, line: Line, all: bool) -> GridTest
    ensures exact { (units : ℤ) → Passes (ladder_on line) result units ↔ IsTrue all }
    ensures level { NamesLevelBelow (ladder_on line).levels result }
{
    if all {
        GridTest::NoneOf(Numbers::new(alloc))
    } else {
        GridTest::OneOf(Numbers::new(alloc))
    }
}

/// The test for the numbers that compare so with a bound, or with a false sign for all others.
fn compare_test(line: Line, how: Compare, bound: i128, sign: bool) -> GridTest
    requires order { how ≢ compare.Equal }
    requires range { IsDecimal bound }
    ensures exact { (units : ℤ) → Passes (ladder_on line) result units ↔ Signed sign (Compares how units bound) }
    ensures level { NamesLevelBelow (ladder_on line).levels result }
{
    match (how, sign) {
        (Compare::Above, true) | (Compare::AtMost, false) => GridTest::Least(bound + 1),
        (Compare::AtLeast, true) | (Compare::Below, false) => GridTest::Least(bound),
        (Compare::Below, true) | (Compare::AtLeast, false) => GridTest::Most(bound - 1),
        (Compare::AtMost, true) | (Compare::Above, false) => GridTest::Most(bound),
        (Compare::Equal, _) => unreachable!(),
    }
}

/// The same of a bound that is a cell.
fn bound_test(line: Line, how: Compare, bound: &Cell, sign: bool) -> GridTest
    requires order { how ≢ compare.Equal }
    requires bound { IsBound (class_on line) bound.now }
    ensures exact { (units : ℤ) → Passes (ladder_on line) result units
        ↔ Signed sign (CellsCompare how (cell_on line units) bound.now) }
    ensures level { NamesLevelBelow (ladder_on line).levels result }
{
    match units_on(line, bound.view()) {
        Some(units) => compare_test(line, how, units, sign),
        None => unreachable!(),
    }
}

/// The test for the numbers on a level, or with a false sign for all others.
fn level_test(line: Line, level: u32, sign: bool) -> GridTest
    requires { IsLevel (class_on line) level }
    ensures exact { (units : ℤ) → Passes (ladder_on line) result units
        ↔ Signed sign ((ladder_on line).IsOn level units) }
    ensures level { NamesLevelBelow (ladder_on line).levels result }
{
    if sign {
        GridTest::On(level)
    } else {
        GridTest::Off(level)
    }
}

/// The test for the numbers whose cells pass a signed atom.
pub fn grid_test(alloc: Global, line: Line, signed: &SignedAtom) -> Result<GridTest, Memory>
    requires { IsTestOn line signed.now.atom.test }
    ensures exact { IfOk result (λ test. (units : ℤ) → Passes (ladder_on line) test units
        ↔ PassesAtom signed.now (cell_on line units)) }
    ensures level { IfOk result (NamesLevelBelow (ladder_on line).levels) }
{
    let sign = signed.sign;
    match &signed.atom.test {
        Test::EqualTo(operand) => members_test(alloc, line, std::slice::from_ref(operand), sign),
        Test::InSet(members) => members_test(alloc, line, members.as_slice(), sign),
        Test::Above(bound) => Ok(bound_test(line, Compare::Above, bound, sign)),
        Test::AtLeast(bound) => Ok(bound_test(line, Compare::AtLeast, bound, sign)),
        Test::Below(bound) => Ok(bound_test(line, Compare::Below, bound, sign)),
        Test::AtMost(bound) => Ok(bound_test(line, Compare::AtMost, bound, sign)),
        Test::OnGrid(level) => Ok(level_test(line, *level, sign)),
        Test::IsNull(wanted) => Ok(constant(alloc, line, *wanted != sign)),
        Test::Matching(_)
        | Test::Containing(_)
        | Test::OfLength(_)
        | Test::LongerThan(_)
        | Test::ShorterThan(_) => Ok(constant(alloc, line, !sign)),
    }
}
