//! The regions of the parts, and the least of their cells at a field.

ghost use Rattle.std.specs.Prelude.{◌≡◌, ◌↔◌, ◌+◌, ◌<◌, ◌≤◌, true, [], length, slice_index_or, All};
ghost use Rattle.std.specs.List.{sum_by};
ghost use Rattle.helix_rows.specs.Regions.{cell_at, FitsBound, IsAskedFor, NoneFalls};
ghost use Rattle.helix_rows.specs.Parts.{HasAt};
ghost use Rattle.helix_rows.specs.Inner.Cells.{HasCells};
ghost use Rattle.helix_rows.specs.Inner.Among.{asked_at, AreKnown};
ghost use Rattle.helix_rows.specs.Inner.Levels.{before_of, among_at, IsReady, alive_at, KeepRegions, IsLayout, ChangedIf};
ghost use Rattle.helix_rows.specs.Inner.Answers.{IsFoundIf, IsMarkFor};
ghost use Rattle.helix_values.specs.Class.{Class};
ghost use Rattle.helix_values.specs.Counts.{IsMarkBound, IsMarkOf};
ghost use Rattle.helix_values.specs.View.{cell_of};
ghost use Rattle.helix_values.specs.declared.cell.Cell.{Cell};
ghost use Rattle.helix_values.specs.Slot.{FitsSlot};

use crate::layout::Layout;
use crate::numbers::Numbers;
use crate::offer::{Found, least_of};
use crate::region::{Question, Region};
use helix_base::{Ledger, Steps};
use helix_values::{CellRef, Mark, RowBuf};

/// The regions of all parts, the row of the place, and the regions that are alive after the cell of each field.
#[derive(Drop)]
pub(crate) struct State<R: Region> {
    pub(crate) regions: Vec<R>,
    pub(crate) alive: Vec<Numbers>,
    pub(crate) row: RowBuf,
    pub(crate) found: Found,
}

/// Which regions of a field's part are asked: those that are alive at its level, or all.
#[derive(Clone, Copy, Debug)]
pub(crate) enum Candidates {
    Alive,
    All,
}

/// The regions that are alive at the level of a field: those after the cell of the field before it in its part.
#[inline(always)]
pub(crate) fn among<'a>(layout: &'a Layout, alive: &'a [Numbers], field: usize) -> &'a [u32]
    requires layout { IsLayout layout.now (length alive.now) }
    requires field { field < length alive.now }
    ensures { result.now ≡ among_at layout.now alive.now field }
{
    let level = layout.levels.as_slice()[field];
    let part = &layout.parts.as_slice()[level.part];
    if level.position == 0 {
        return part.regions.as_slice();
    }
    let before = part.fields.as_slice()[level.position - 1];
    alive[before as usize].as_slice()
}

/// The regions of a field's part to ask.
#[inline(always)]
fn to_ask<'a>(
    layout: &'a Layout,
    alive: &'a [Numbers],
    which: Candidates,
    field: usize,
) -> &'a [u32]
    requires layout { IsLayout layout.now (length alive.now) }
    requires field { field < length alive.now }
    ensures { result.now ≡ asked_at which layout.now alive.now field }
{
    match which {
        Candidates::Alive => among(layout, alive, field),
        Candidates::All => {
            let level = layout.levels.as_slice()[field];
            layout.parts.as_slice()[level.part].regions.as_slice()
        }
    }
}

/// Whether nothing can be above a cell that is asked for what is above it: nothing is above null.
#[inline(always)]
pub(crate) fn is_last(question: Question, cell: CellRef<'_>) -> bool
    ensures { result ≡ true → (other : Cell) → ¬ (IsAskedFor question (cell_of cell.entry) other) }
{
    match (question, cell) {
        (Question::After, CellRef::Null) => true,
        _ => false,
    }
}

/// What a question admits of a row's own cell.
#[inline(always)]
pub(crate) fn mark_of<'a>(question: Question, cell: CellRef<'a>) -> Mark<'a>
    ensures mark { IsMarkFor question (cell_of cell.entry) result }
    ensures class { (class : Class) → IsMarkBound class (cell_of cell.entry) → IsMarkOf class result }
    ensures bound { FitsSlot (cell_of cell.entry) → FitsBound result }
{
    match question {
        Question::Start => Mark::Start,
        Question::At => Mark::At(cell),
        Question::After => Mark::After(cell),
    }
}

/// Asks regions of a field's part for the least cell of a row at that field that a question admits, of those that the
/// row's earlier cells go on with. The cell is in `found`, and the regions that gave it are the ones that are alive
/// after it.
pub(crate) fn find<R: Region, L: Ledger>(
    layout: &Layout,
    state: &mut State<R>,
    which: Candidates,
    field: usize,
    question: Question,
    steps: &mut Steps<L>,
) -> bool
    requires layout { IsLayout layout.now (length state.old.row) }
    requires field { field < length state.old.row }
    requires ready { IsReady R.fields R.classes R.HasRow layout.now state.old.regions.items state.old.alive.items
        state.old.found.numbers.room (length state.old.row) }
    requires known { AreKnown which (HasAt R.HasRow state.old.regions.items) layout.now state.old.row
        state.old.alive.items field }
    requires cells { HasCells R.classes state.old.regions.items layout.now state.old.row }
    requires fit { All FitsSlot state.old.row }
    ensures found { IsFoundIf (HasAt R.HasRow state.old.regions.items)
        (asked_at which layout.now state.old.alive.items field) (before_of layout.now field state.old.row)
        (IsAskedFor question (cell_at state.old.row field)) result
        (record { numbers = alive_at state.new.alive.items field; cell = state.new.found.best }) }
    ensures row { state.new.row ≡ state.old.row }
    ensures fits { result ≡ true → FitsSlot state.new.found.best }
    ensures cells { HasCells R.classes state.new.regions.items layout.now state.new.row }
    ensures alive { state.new.alive.items ≡ ChangedIf result state.old.alive.items field
        (slice_index_or state.new.alive.items field (record { items = []; room = 0 })) }
    ensures ready { IsReady R.fields R.classes R.HasRow layout.now state.new.regions.items state.new.alive.items
        state.new.found.numbers.room (length state.new.row) }
    ensures room { state.new.found.numbers.room ≡ state.old.found.numbers.room }
    ensures kept { KeepRegions R.fields R.classes R.asked R.HasRow state.old.regions.items state.new.regions.items }
    ensures asked { sum_by R.asked state.new.regions.items
        ≤ sum_by R.asked state.old.regions.items + state.old.found.numbers.room }
    ensures steps { NoneFalls steps.old.counts steps.new.counts }
{
    let asked = to_ask(layout, state.alive.as_slice(), which, field);
    let mark = mark_of(question, state.row.slot(field).view());
    if !least_of(
        layout,
        &mut state.regions,
        asked,
        &state.row,
        field,
        mark,
        &mut state.found,
        steps,
    ) {
        return false;
    }
    std::mem::swap(&mut state.found.numbers, &mut state.alive[field]);
    true
}
