//! The last cell of any row that can be raised.

ghost use Rattle.std.specs.Prelude.{◌≡◌, ◌↔◌, ◌+◌, ◌*◌, ◌<◌, ◌≤◌, [], List, Option, None, length, IsTrue, MatchOption, All};
ghost use Rattle.std.specs.List.{sum_by};
ghost use Rattle.helix_rows.specs.Regions.{NoneFalls};
ghost use Rattle.helix_rows.specs.Parts.{HasAt, IsInParts};
ghost use Rattle.helix_rows.specs.Inner.Cells.{HasCells};
ghost use Rattle.helix_rows.specs.Inner.Levels.{AreAliveTo, AreBegunTo, IsReady, KeepRegions, IsLayout};
ghost use Rattle.helix_rows.specs.Inner.Answers.{IsLastFrom, IsRaised};
ghost use Rattle.helix_rows.specs.Inner.Following.{IsRaisable};
ghost use Rattle.helix_values.specs.Slot.{FitsSlot};
ghost use Rattle.helix_values.specs.View.{cell_of};
ghost use Rattle.helix_values.specs.declared.cell.Cell.{Cell};

use crate::layout::Layout;
use crate::region::{Question, Region};
use crate::state::{Candidates, State, find, is_last};
use helix_base::{Ledger, Steps};
use helix_values::{CellRef, Slot};

/// Whether two cells are one.
#[inline(always)]
pub(crate) fn is_same(a: CellRef<'_>, b: CellRef<'_>) -> bool
    ensures { IsTrue result ↔ (cell_of a.entry ≡ cell_of b.entry) }
{
    match (a, b) {
        (CellRef::Null, CellRef::Null) => true,
        (CellRef::Bool(a), CellRef::Bool(b)) => a == b,
        (CellRef::Number(a), CellRef::Number(b)) => a == b,
        (CellRef::Moment(a), CellRef::Moment(b)) => a == b,
        (CellRef::Text(a), CellRef::Text(b)) => a == b,
        _ => false,
    }
}

/// Looks at one more field of a row, the one before those that were looked at. The field that can be raised so far, and
/// its cell in the slot, are kept where the row's cell of this field begins a row of its part. Else this field is
/// raised, or none so far.
fn rise<R: Region, L: Ledger>(
    layout: &Layout,
    state: &mut State<R>,
    field: usize,
    raised: Option<usize>,
    best: &mut Slot,
    steps: &mut Steps<L>,
) -> Option<usize>
    requires layout { IsLayout layout.now (length state.old.row) }
    requires field { field < length state.old.row }
    requires ready { IsReady R.fields R.classes R.HasRow layout.now state.old.regions.items state.old.alive.items
        state.old.found.numbers.room (length state.old.row) }
    requires fit { All FitsSlot state.old.row }
    requires cells { HasCells R.classes state.old.regions.items layout.now state.old.row }
    requires raised { IsRaisable (HasAt R.HasRow state.old.regions.items) layout.now state.old.row
        state.old.alive.items best.old (field + 1) raised }
    ensures raised { IsRaisable (HasAt R.HasRow state.old.regions.items) layout.now state.old.row
        state.new.alive.items best.new field result }
    ensures row { state.new.row ≡ state.old.row }
    ensures cells { HasCells R.classes state.new.regions.items layout.now state.new.row }
    ensures ready { IsReady R.fields R.classes R.HasRow layout.now state.new.regions.items state.new.alive.items
        state.new.found.numbers.room (length state.new.row) }
    ensures room { state.new.found.numbers.room ≡ state.old.found.numbers.room }
    ensures kept { KeepRegions R.fields R.classes R.asked R.HasRow state.old.regions.items state.new.regions.items }
    ensures asked { sum_by R.asked state.new.regions.items
        ≤ sum_by R.asked state.old.regions.items + state.old.found.numbers.room }
    ensures steps { NoneFalls steps.old.counts steps.new.counts }
{
    match raised {
        None => {
            if is_last(Question::After, state.row.slot(field).view()) {
                return None;
            }
            if !find(
                layout,
                state,
                Candidates::All,
                field,
                Question::After,
                steps,
            ) {
                return None;
            }
            best.set(state.found.best.view());
            Some(field)
        }
        Some(_) => {
            if !find(layout, state, Candidates::All, field, Question::At, steps) {
                return None;
            }
            if is_same(state.found.best.view(), state.row.slot(field).view()) {
                return raised;
            }
            best.set(state.found.best.view());
            Some(field)
        }
    }
}

/// Finds the last field of any row whose cell can be raised so that the cells up to it begin rows of all parts, and
/// puts that cell into the slot. Each field is looked at once, the last one first.
fn last_raisable<R: Region, L: Ledger>(
    layout: &Layout,
    state: &mut State<R>,
    best: &mut Slot,
    steps: &mut Steps<L>,
) -> Option<usize>
    requires layout { IsLayout layout.now (length state.old.row) }
    requires ready { IsReady R.fields R.classes R.HasRow layout.now state.old.regions.items state.old.alive.items
        state.old.found.numbers.room (length state.old.row) }
    requires fit { All FitsSlot state.old.row }
    requires cells { HasCells R.classes state.old.regions.items layout.now state.old.row }
    ensures raised { IsRaisable (HasAt R.HasRow state.old.regions.items) layout.now state.old.row
        state.new.alive.items best.new 0 result }
    ensures row { state.new.row ≡ state.old.row }
    ensures cells { HasCells R.classes state.new.regions.items layout.now state.new.row }
    ensures ready { IsReady R.fields R.classes R.HasRow layout.now state.new.regions.items state.new.alive.items
        state.new.found.numbers.room (length state.new.row) }
    ensures room { state.new.found.numbers.room ≡ state.old.found.numbers.room }
    ensures kept { KeepRegions R.fields R.classes R.asked R.HasRow state.old.regions.items state.new.regions.items }
    ensures asked { sum_by R.asked state.new.regions.items
        ≤ sum_by R.asked state.old.regions.items + length state.old.row * state.old.found.numbers.room }
    ensures steps { NoneFalls steps.old.counts steps.new.counts }
{
    let count = state.row.len();
    let mut raised = None;
    for done in 0..count {
        raised = rise(layout, state, count - 1 - done, raised, best, steps);
    }
    raised
}

/// Raises the last cell of any row that can be raised, so that the cells up to it begin rows of all parts, as
/// [`raise`](crate::climb::raise) does where the row is in the parts. The slot is room for that cell.
pub(crate) fn raise_any<R: Region, L: Ledger>(
    layout: &Layout,
    state: &mut State<R>,
    best: &mut Slot,
    steps: &mut Steps<L>,
) -> Option<usize>
    requires layout { IsLayout layout.now (length state.old.row) }
    requires ready { IsReady R.fields R.classes R.HasRow layout.now state.old.regions.items state.old.alive.items
        state.old.found.numbers.room (length state.old.row) }
    requires fit { All FitsSlot state.old.row }
    requires cells { HasCells R.classes state.old.regions.items layout.now state.old.row }
    ensures raised { MatchOption result
        ((state.new.row ≡ state.old.row)
        × IsLastFrom (IsInParts (HasAt R.HasRow state.old.regions.items) (length state.old.row) layout.now.parts)
        state.old.row 0)
        (λ field. IsRaised
        (IsInParts (HasAt R.HasRow state.old.regions.items) (length state.old.row) layout.now.parts) state.old.row
        state.new.row field × (field < length state.old.row)
        × AreAliveTo (HasAt R.HasRow state.old.regions.items) layout.now state.new.row state.new.alive.items
        (field + 1)
        × AreBegunTo (HasAt R.HasRow state.old.regions.items) layout.now state.new.row (field + 1)) }
    ensures fit { All FitsSlot state.new.row }
    ensures cells { HasCells R.classes state.new.regions.items layout.now state.new.row }
    ensures ready { IsReady R.fields R.classes R.HasRow layout.now state.new.regions.items state.new.alive.items
        state.new.found.numbers.room (length state.new.row) }
    ensures length { length state.new.row ≡ length state.old.row }
    ensures room { state.new.found.numbers.room ≡ state.old.found.numbers.room }
    ensures kept { KeepRegions R.fields R.classes R.asked R.HasRow state.old.regions.items state.new.regions.items }
    ensures asked { sum_by R.asked state.new.regions.items
        ≤ sum_by R.asked state.old.regions.items + length state.old.row * state.old.found.numbers.room }
    ensures steps { NoneFalls steps.old.counts steps.new.counts }
{
    match last_raisable(layout, state, best, steps) {
        Some(field) => {
            state.row.set(field, best.view());
            Some(field)
        }
        None => None,
    }
}
