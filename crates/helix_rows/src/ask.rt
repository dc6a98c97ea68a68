//! Questions at the level of a field, whose answer the row gets.

ghost use Rattle.std.specs.Prelude.{◌≡◌, ◌↔◌, ◌+◌, ◌<◌, ◌≤◌, true, [], length, slice_set, slice_index_or, All};
ghost use Rattle.std.specs.List.{sum_by};
ghost use Rattle.helix_rows.specs.Regions.{cell_at, Begins, Continues, IsAskedFor, IsLeastStep, NoneFalls};
ghost use Rattle.helix_rows.specs.Parts.{HasAt, IsInPart, IsRegionOver};
ghost use Rattle.helix_rows.specs.Inner.Cells.{HasCells, IsCellOf};
ghost use Rattle.helix_rows.specs.Inner.Levels.{part_of, level_of, before_of, among_at, GoesOn, AreAliveTo, IsAlive, IsReady, alive_at, KeepRegions, IsLayout, ChangedIf, OneIf};
ghost use Rattle.helix_rows.specs.Inner.Answers.{IsFoundIf};
ghost use Rattle.helix_values.specs.View.{cell_of};
ghost use Rattle.helix_values.specs.declared.cell.Cell.{Cell};
ghost use Rattle.helix_values.specs.Slot.{FitsSlot};

use crate::layout::Layout;
use crate::region::{Question, Region};
use crate::state::{Candidates, State, among, find, is_last};
use helix_base::{Ledger, Steps};

/// Asks the one region that is alive at the level of a field.
#[inline(always)]
fn ask_one<R: Region, L: Ledger>(
    layout: &Layout,
    state: &mut State<R>,
    number: u32,
    field: usize,
    question: Question,
    steps: &mut Steps<L>,
) -> bool
    requires layout { IsLayout layout.now (length state.old.row) }
    requires field { field < length state.old.row }
    requires over { IsRegionOver R.fields state.old.regions.items (part_of layout.now field).fields number }
    requires begun { Begins (HasAt R.HasRow state.old.regions.items number)
        (before_of layout.now field state.old.row) }
    requires alive { field < length state.old.alive.items }
    requires own { IsCellOf R.classes state.old.regions.items number (level_of layout.now field).position
        (cell_at state.old.row field) }
    requires room { 1 ≤ (slice_index_or state.old.alive.items field (record { items = []; room = 0 })).room }
    ensures answer { IsLeastStep
        (Continues (HasAt R.HasRow state.old.regions.items number) (before_of layout.now field state.old.row))
        question result (cell_at state.old.row field) (cell_at state.new.row field) }
    ensures row { state.new.row ≡ slice_set state.old.row field (cell_at state.new.row field) }
    ensures alive { state.new.alive.items ≡ OneIf result state.old.alive.items field number }
    ensures found { state.new.found ≡ state.old.found }
    ensures kept { KeepRegions R.fields R.classes R.asked R.HasRow state.old.regions.items state.new.regions.items }
    ensures asked { sum_by R.asked state.new.regions.items ≤ sum_by R.asked state.old.regions.items + 1 }
    ensures steps { NoneFalls steps.old.counts steps.new.counts }
{
    let position = layout.levels.as_slice()[field].position;
    let region = &mut state.regions[number as usize];
    if !region.step(&mut state.row, position, question, steps) {
        return false;
    }
    let alive = &mut state.alive[field];
    alive.clear();
    alive.push(number);
    true
}

/// Asks several regions that are alive at the level of a field.
fn ask_each<R: Region, L: Ledger>(
    layout: &Layout,
    state: &mut State<R>,
    field: usize,
    question: Question,
    steps: &mut Steps<L>,
) -> bool
    requires layout { IsLayout layout.now (length state.old.row) }
    requires field { field < length state.old.row }
    requires ready { IsReady R.fields R.classes R.HasRow layout.now state.old.regions.items state.old.alive.items
        state.old.found.numbers.room (length state.old.row) }
    requires alive { AreAliveTo (HasAt R.HasRow state.old.regions.items) layout.now state.old.row
        state.old.alive.items field }
    requires cells { HasCells R.classes state.old.regions.items layout.now state.old.row }
    requires fit { All FitsSlot state.old.row }
    ensures found { IsFoundIf (HasAt R.HasRow state.old.regions.items) (among_at layout.now state.old.alive.items field)
        (before_of layout.now field state.old.row) (IsAskedFor question (cell_at state.old.row field)) result
        (record { numbers = alive_at state.new.alive.items field; cell = cell_at state.new.row field }) }
    ensures row { state.new.row ≡ ChangedIf result state.old.row field (cell_at state.new.row field) }
    ensures fits { result ≡ true → FitsSlot (cell_at state.new.row field) }
    ensures alive { state.new.alive.items ≡ ChangedIf result state.old.alive.items field
        (slice_index_or state.new.alive.items field (record { items = []; room = 0 })) }
    ensures ready { IsReady R.fields R.classes R.HasRow layout.now state.new.regions.items state.new.alive.items
        state.new.found.numbers.room (length state.new.row) }
    ensures room { state.new.found.numbers.room ≡ state.old.found.numbers.room }
    ensures kept { KeepRegions R.fields R.classes R.asked R.HasRow state.old.regions.items state.new.regions.items }
    ensures asked { sum_by R.asked state.new.regions.items
        ≤ sum_by R.asked state.old.regions.items + state.old.found.numbers.room }
    ensures steps { NoneFalls steps.old.counts steps.new.counts }
{
    if !find(layout, state, Candidates::Alive, field, question, steps) {
        return false;
    }
    state.row.set(field, state.found.best.view());
    true
}

/// Asks the regions of a field's part for the least cell of a row at that field, or the least one above its own, of
/// those that the row's earlier cells go on with. The row gets that cell.
pub(crate) fn ask<R: Region, L: Ledger>(
    layout: &Layout,
    state: &mut State<R>,
    field: usize,
    question: Question,
    steps: &mut Steps<L>,
) -> bool
    requires layout { IsLayout layout.now (length state.old.row) }
    requires field { field < length state.old.row }
    requires ready { IsReady R.fields R.classes R.HasRow layout.now state.old.regions.items state.old.alive.items
        state.old.found.numbers.room (length state.old.row) }
    requires alive { AreAliveTo (HasAt R.HasRow state.old.regions.items) layout.now state.old.row
        state.old.alive.items field }
    requires begun { Begins (IsInPart (HasAt R.HasRow state.old.regions.items) (part_of layout.now field).regions)
        (before_of layout.now field state.old.row) }
    requires cells { HasCells R.classes state.old.regions.items layout.now state.old.row }
    requires fit { All FitsSlot state.old.row }
    ensures answer { IsLeastStep (GoesOn (HasAt R.HasRow state.old.regions.items) layout.now field state.old.row)
        question result (cell_at state.old.row field) (cell_at state.new.row field) }
    ensures row { state.new.row ≡ ChangedIf result state.old.row field (cell_at state.new.row field) }
    ensures fit { All FitsSlot state.new.row }
    ensures cells { HasCells R.classes state.new.regions.items layout.now state.new.row }
    ensures chosen { result ≡ true → IsAlive (HasAt R.HasRow state.old.regions.items) layout.now state.new.row field
        (alive_at state.new.alive.items field) }
    ensures alive { state.new.alive.items ≡ ChangedIf result state.old.alive.items field
        (slice_index_or state.new.alive.items field (record { items = []; room = 0 })) }
    ensures ready { IsReady R.fields R.classes R.HasRow layout.now state.new.regions.items state.new.alive.items
        state.new.found.numbers.room (length state.new.row) }
    ensures room { state.new.found.numbers.room ≡ state.old.found.numbers.room }
    ensures kept { KeepRegions R.fields R.classes R.asked R.HasRow state.old.regions.items state.new.regions.items }
    ensures asked { sum_by R.asked state.new.regions.items
        ≤ sum_by R.asked state.old.regions.items + state.old.found.numbers.room }
    ensures steps { NoneFalls steps.old.counts steps.new.counts }
{
    if is_last(question, state.row.slot(field).view()) {
        return false;
    }
    let alive = among(layout, state.alive.as_slice(), field);
    if alive.len() == 1 {
        let number = alive[0];
        return ask_one(layout, state, number, field, question, steps);
    }
    ask_each(layout, state, field, question, steps)
}
