//! The next row, field by field.

ghost use Rattle.std.specs.Prelude.{◌≡◌, ◌+◌, ◌*◌, ◌-◌, ◌<◌, ◌≤◌, ℕ, List, length, slice_set, MatchOption, All, []};
ghost use Rattle.std.specs.List.{sum_by};
ghost use Rattle.helix_rows.specs.Regions.{cell_at, IsFirstChange, NoneFalls};
ghost use Rattle.helix_rows.specs.Parts.{HasAt, IsInParts};
ghost use Rattle.helix_rows.specs.Inner.Cells.{HasCells};
ghost use Rattle.helix_rows.specs.Inner.Levels.{Agree, AreAliveTo, AreBegunTo, IsReady, KeepRegions, IsLayout};
ghost use Rattle.helix_rows.specs.Inner.Answers.{IsLeastAt, IsLastFrom, IsRaised};
ghost use Rattle.helix_values.specs.Slot.{FitsSlot};

use crate::ask::ask;
use crate::layout::Layout;
use crate::region::{Question, Region};
use crate::state::State;
use helix_base::{Ledger, Steps};

/// Raises the last cell before a field that can be raised, so that the row's cells up to it begin rows of all parts.
/// The fields after it are of no account. Where none can be raised, the row stays.
pub(crate) fn raise<R: Region, L: Ledger>(
    layout: &Layout,
    state: &mut State<R>,
    end: usize,
    steps: &mut Steps<L>,
) -> Option<usize>
    requires layout { IsLayout layout.now (length state.old.row) }
    requires end { end ≤ length state.old.row }
    requires ready { IsReady R.fields R.classes R.HasRow layout.now state.old.regions.items state.old.alive.items
        state.old.found.numbers.room (length state.old.row) }
    requires alive { AreAliveTo (HasAt R.HasRow state.old.regions.items) layout.now state.old.row
        state.old.alive.items end }
    requires begun { AreBegunTo (HasAt R.HasRow state.old.regions.items) layout.now state.old.row end }
    requires last { IsLastFrom
        (IsInParts (HasAt R.HasRow state.old.regions.items) (length state.old.row) layout.now.parts) state.old.row end }
    requires fit { All FitsSlot state.old.row }
    requires cells { HasCells R.classes state.old.regions.items layout.now state.old.row }
    ensures raised { MatchOption result
        ((state.new.row ≡ state.old.row) × (state.new.alive.items ≡ state.old.alive.items)
        × IsLastFrom (IsInParts (HasAt R.HasRow state.old.regions.items) (length state.old.row) layout.now.parts)
        state.old.row 0)
        (λ field. IsRaised
        (IsInParts (HasAt R.HasRow state.old.regions.items) (length state.old.row) layout.now.parts) state.old.row
        state.new.row field × (field < end)
        × AreAliveTo (HasAt R.HasRow state.old.regions.items) layout.now state.new.row state.new.alive.items
        (field + 1)
        × AreBegunTo (HasAt R.HasRow state.old.regions.items) layout.now state.new.row (field + 1)) }
    ensures fit { All FitsSlot state.new.row }
    ensures cells { HasCells R.classes state.new.regions.items layout.now state.new.row }
    ensures ready { IsReady R.fields R.classes R.HasRow layout.now state.new.regions.items state.new.alive.items
        state.new.found.numbers.room (length state.new.row) }
    ensures length { length state.new.row ≡ length state.old.row }
    ensures room { state.new.found.numbers.room ≡ state.old.found.numbers.room }
    ensures kept { KeepRegions R.fields R.classes R.asked R.HasRow state.old.regions.items state.new.regions.items }
    ensures asked { sum_by R.asked state.new.regions.items
        ≤ sum_by R.asked state.old.regions.items + end * state.old.found.numbers.room }
    ensures steps { NoneFalls steps.old.counts steps.new.counts }
{
    for done in 0..end {
        let field = end - 1 - done;
        if ask(layout, state, field, Question::After, steps) {
            return Some(field);
        }
    }
    None
}

/// Gives the row the least cells from a field on, where those before it begin rows of all parts.
pub(crate) fn descend<R: Region, L: Ledger>(
    layout: &Layout,
    state: &mut State<R>,
    start: usize,
    steps: &mut Steps<L>,
)
    requires layout { IsLayout layout.now (length state.old.row) }
    requires start { start ≤ length state.old.row }
    requires ready { IsReady R.fields R.classes R.HasRow layout.now state.old.regions.items state.old.alive.items
        state.old.found.numbers.room (length state.old.row) }
    requires regions { All (λ part. ¬ (part.regions ≡ [])) layout.now.parts }
    requires alive { AreAliveTo (HasAt R.HasRow state.old.regions.items) layout.now state.old.row
        state.old.alive.items start }
    requires begun { AreBegunTo (HasAt R.HasRow state.old.regions.items) layout.now state.old.row start }
    requires fit { All FitsSlot state.old.row }
    requires cells { HasCells R.classes state.old.regions.items layout.now state.old.row }
    ensures least { (field : ℕ) → start ≤ field → field < length state.old.row → IsLeastAt
        (IsInParts (HasAt R.HasRow state.old.regions.items) (length state.old.row) layout.now.parts)
        state.new.row field }
    ensures same { Agree start state.new.row state.old.row }
    ensures alive { AreAliveTo (HasAt R.HasRow state.old.regions.items) layout.now state.new.row
        state.new.alive.items (length state.old.row) }
    ensures begun { AreBegunTo (HasAt R.HasRow state.old.regions.items) layout.now state.new.row
        (length state.old.row) }
    ensures fit { All FitsSlot state.new.row }
    ensures cells { HasCells R.classes state.new.regions.items layout.now state.new.row }
    ensures ready { IsReady R.fields R.classes R.HasRow layout.now state.new.regions.items state.new.alive.items
        state.new.found.numbers.room (length state.new.row) }
    ensures length { length state.new.row ≡ length state.old.row }
    ensures room { state.new.found.numbers.room ≡ state.old.found.numbers.room }
    ensures kept { KeepRegions R.fields R.classes R.asked R.HasRow state.old.regions.items state.new.regions.items }
    ensures asked { sum_by R.asked state.new.regions.items
        ≤ sum_by R.asked state.old.regions.items + length state.old.row * state.old.found.numbers.room }
    ensures steps { NoneFalls steps.old.counts steps.new.counts }
{
    let count = state.row.len();
    for field in start..count {
        ask(layout, state, field, Question::Start, steps);
    }
}
