//! The grids of numbers and moments.

ghost use Rattle.std.specs.Prelude.{ℤ, ◌≡◌, ◌↔◌, ◌<◌, Some, IsTrue, IfOk};
ghost use Rattle.std.specs.List.{All};
ghost use Rattle.helix_domains.specs.Domain.{PassesAtom, IsAtomFor};
ghost use Rattle.helix_words.specs.Questions.{IsLeastAnswer};
ghost use Rattle.helix_domains.specs.Inner.Line.{cell_on, class_on, ladder_on, IsTestOn, IsOnLine};
ghost use Rattle.helix_domains.specs.Inner.Values.{AreValuesOf};
ghost use Rattle.helix_domains.specs.Near.{IsNextAnswer};
ghost use Rattle.helix_domains.specs.declared.line.Line.TheVariants as line;
ghost use Rattle.helix_grids.specs.Tests.{Passes, NamesLevelBelow, IsMember};
ghost use Rattle.helix_ladders.specs.Ladders.{numbers_ladder, moments_ladder};
ghost use Rattle.helix_values.specs.Class.{numbers as of_numbers, moments as of_moments, class_of_kind};
ghost use Rattle.helix_values.specs.Counts.{IsMarkOf};
ghost use Rattle.helix_values.specs.View.{cell_of};
ghost use Rattle.helix_values.specs.OwnLevel.{own_level};

use crate::atom::SignedAtom;
use crate::bounds::grid_test;
use crate::line::{Line, first_units, units_on};
use crate::values::Values;
use helix_base::Memory;
use helix_grids::{Grid, GridTest};
use helix_values::{Calendar, CellRef, Decades, Kind, Mark, Slot};
use std::alloc::Global;

/// The tests for the numbers whose cells pass each signed atom.
fn grid_tests(alloc: Global, line: Line, atoms: &[SignedAtom]) -> Result<Vec<GridTest>, Memory>
    requires { All (λ signed. IsTestOn line signed.atom.test) atoms.now }
    ensures exact { IfOk result (λ tests. (units : ℤ) → All (λ test. Passes (ladder_on line) test units) tests.items
        ↔ All (λ signed. PassesAtom signed (cell_on line units)) atoms.now) }
    ensures levels { IfOk result (λ tests. All (NamesLevelBelow (ladder_on line).levels) tests.items) }
{
    let mut tests = Vec::new(alloc);
    for signed in atoms {
        tests.push(grid_test(alloc, line, signed)?)?;
    }
    Ok(tests)
}

/// The numbers of a kind that pass each signed atom.
pub fn numbers(
    alloc: Global,
    kind: Kind,
    level: u32,
    atoms: &[SignedAtom],
) -> Result<Values, Memory>
    requires class { class_of_kind kind ≡ of_numbers }
    requires level { own_level kind ≡ Some level }
    requires atoms { All (IsAtomFor kind) atoms.now }
    ensures { IfOk result (AreValuesOf kind atoms.now) }
{
    let tests = grid_tests(alloc, Line::Numbers, atoms)?;
    Ok(Values::Numbers(Grid::of(alloc, Decades, level, tests.as_slice())?))
}

/// The moments of a kind that pass each signed atom.
pub fn moments(
    alloc: Global,
    kind: Kind,
    level: u32,
    atoms: &[SignedAtom],
) -> Result<Values, Memory>
    requires class { class_of_kind kind ≡ of_moments }
    requires level { own_level kind ≡ Some level }
    requires atoms { All (IsAtomFor kind) atoms.now }
    ensures { IfOk result (AreValuesOf kind atoms.now) }
{
    let tests = grid_tests(alloc, Line::Moments, atoms)?;
    Ok(Values::Moments(Grid::of(alloc, Calendar, level, tests.as_slice())?))
}

/// Puts the least number of a grid that a mark admits into a slot.
pub fn first_number(grid: &Grid<Decades>, mark: Mark<'_>, out: &mut Slot) -> bool
    requires { IsMarkOf of_numbers mark }
    ensures { IsLeastAnswer (IsOnLine line.Numbers (IsMember numbers_ladder grid.now.level grid.now.tests)) mark.entry
        result out.old out.new }
{
    let Some(bound) = first_units(Line::Numbers, mark) else {
        return false;
    };
    let Some(units) = grid.at_or_after(bound) else {
        return false;
    };
    out.set(CellRef::Number(units));
    true
}

/// Puts the least moment of a grid that a mark admits into a slot.
pub fn first_moment(grid: &Grid<Calendar>, mark: Mark<'_>, out: &mut Slot) -> bool
    requires { IsMarkOf of_moments mark }
    ensures { IsLeastAnswer (IsOnLine line.Moments (IsMember moments_ladder grid.now.level grid.now.tests)) mark.entry
        result out.old out.new }
{
    let Some(bound) = first_units(Line::Moments, mark) else {
        return false;
    };
    let Some(at) = grid.at_or_after(bound) else {
        return false;
    };
    out.set(CellRef::Moment(at as i64));
    true
}

/// Makes a slot that holds a number of a grid the least one above it.
#[inline(always)]
pub fn next_number(grid: &Grid<Decades>, slot: &mut Slot) -> bool
    requires { IsOnLine line.Numbers (IsMember numbers_ladder grid.now.level grid.now.tests) slot.old }
    ensures { IsNextAnswer (IsOnLine line.Numbers (IsMember numbers_ladder grid.now.level grid.now.tests)) result
        slot.old slot.new }
{
    let Some(units) = units_on(Line::Numbers, slot.view()) else {
        unreachable!();
    };
    match grid.after(units) {
        Some(next) => {
            slot.set(CellRef::Number(next));
            true
        }
        None => false,
    }
}

/// Makes a slot that holds a moment of a grid the least one above it.
#[inline(always)]
pub fn next_moment(grid: &Grid<Calendar>, slot: &mut Slot) -> bool
    requires { IsOnLine line.Moments (IsMember moments_ladder grid.now.level grid.now.tests) slot.old }
    ensures { IsNextAnswer (IsOnLine line.Moments (IsMember moments_ladder grid.now.level grid.now.tests)) result
        slot.old slot.new }
{
    let Some(at) = units_on(Line::Moments, slot.view()) else {
        unreachable!();
    };
    match grid.after(at) {
        Some(next) => {
            slot.set(CellRef::Moment(next as i64));
            true
        }
        None => false,
    }
}

/// Whether a number is on a grid.
pub fn has_number(grid: &Grid<Decades>, value: CellRef<'_>) -> bool
    ensures { IsTrue result
        ↔ IsOnLine line.Numbers (IsMember numbers_ladder grid.now.level grid.now.tests) (cell_of value.entry) }
{
    match units_on(Line::Numbers, value) {
        Some(units) => grid.at_or_after(units) == Some(units),
        None => false,
    }
}

/// Whether a moment is on a grid.
pub fn has_moment(grid: &Grid<Calendar>, value: CellRef<'_>) -> bool
    ensures { IsTrue result
        ↔ IsOnLine line.Moments (IsMember moments_ladder grid.now.level grid.now.tests) (cell_of value.entry) }
{
    match units_on(Line::Moments, value) {
        Some(at) => grid.at_or_after(at) == Some(at),
        None => false,
    }
}
