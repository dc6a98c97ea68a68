//! Lists of cells in ascending order.

ghost use Rattle.std.specs.Prelude.{◌≡◌, ◌↔◌, ◌≤◌, length, IsTrue, IfOk};
ghost use Rattle.std.specs.List.{All, AllWithin, Contains};
ghost use Rattle.helix_domains.specs.Form.{AreAscending};
ghost use Rattle.helix_domains.specs.Inner.Listed.{AreSorted, HaveSameCells, IsAboveLast};
ghost use Rattle.helix_words.specs.Questions.{IsLeastAnswer};
ghost use Rattle.helix_values.specs.Marks.{IsAdmitted};
ghost use Rattle.helix_values.specs.Slot.{FitsSlot};
ghost use Rattle.helix_values.specs.View.{cell_of};

use crate::order::{is_admitted, order_of};
use helix_base::Memory;
use helix_values::{Cell, CellRef, Cells, Mark, Slot};
use std::alloc::Global;
use std::cmp::Ordering;

/// The same cells in order, equal ones beside each other.
fn sorted(cells: Vec<Cell>) -> Result<Vec<Cell>, Memory>
    ensures sorted { IfOk result (λ all. AreSorted all.items) }
    ensures same { IfOk result (λ all. HaveSameCells cells.items all.items) }
{
    let mut all = cells;
    all.sort_by(|a, b| order_of(a.view(), b.view()))?;
    Ok(all)
}

/// Whether a cell is above the last one of a list, if the list has one.
fn is_above_last(cells: &[Cell], cell: &Cell) -> bool
    ensures { IsTrue result ↔ IsAboveLast cells.now cell.now }
{
    match cells.last() {
        Some(last) => order_of(last.view(), cell.view()).is_lt(),
        None => true,
    }
}

/// Cells that are in order, each once.
fn distinct(alloc: Global, cells: &[Cell]) -> Result<Cells, Memory>
    requires { AreSorted cells.now }
    ensures ascending { IfOk result AreAscending }
    ensures same { IfOk result (HaveSameCells cells.now) }
{
    let mut all = Cells::new(alloc);
    for cell in cells {
        if is_above_last(all.as_slice(), cell) {
            all.push(cell.copy(alloc)?)?;
        }
    }
    Ok(all)
}

/// The same cells in ascending order, each once.
pub fn ascending(alloc: Global, cells: Vec<Cell>) -> Result<Cells, Memory>
    ensures ascending { IfOk result AreAscending }
    ensures same { IfOk result (HaveSameCells cells.items) }
{
    let all = sorted(cells)?;
    distinct(alloc, all.as_slice())
}

/// The index of the first of the ascending cells that a mark admits, or their number where it admits none.
pub fn first_admitted(cells: &[Cell], mark: Mark<'_>) -> usize
    requires { AreAscending cells.now }
    ensures within { result ≤ length cells.now }
    ensures before { AllWithin (λ cell. ¬ IsAdmitted mark.entry cell) cells.now 0 result }
    ensures from { AllWithin (IsAdmitted mark.entry) cells.now result (length cells.now) }
{
    let mut low = 0;
    let mut high = cells.len();
    while low < high {
        let middle = low + (high - low) / 2;
        if is_admitted(mark, cells[middle].view()) {
            high = middle;
        } else {
            low = middle + 1;
        }
    }
    low
}

/// Puts the least of the ascending cells that a mark admits into a slot.
pub fn first_listed(cells: &[Cell], mark: Mark<'_>, out: &mut Slot) -> bool
    requires ascending { AreAscending cells.now }
    requires fit { All FitsSlot cells.now }
    ensures { IsLeastAnswer (Contains cells.now) mark.entry result out.old out.new }
{
    let index = first_admitted(cells, mark);
    match cells.get(index) {
        Some(cell) => {
            out.set(cell.view());
            true
        }
        None => false,
    }
}

/// Whether an ascending list has a cell.
pub fn is_listed(cells: &[Cell], value: CellRef<'_>) -> bool
    requires { AreAscending cells.now }
    ensures { IsTrue result ↔ Contains cells.now (cell_of value.entry) }
{
    let index = first_admitted(cells, Mark::At(value));
    match cells.get(index) {
        Some(cell) => order_of(cell.view(), value).is_eq(),
        None => false,
    }
}
