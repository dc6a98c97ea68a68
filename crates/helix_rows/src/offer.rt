//! Questions to several regions for the least of their cells.

ghost use Rattle.std.specs.Prelude.{◌≡◌, ◌↔◌, ◌⊎◌, ◌+◌, ◌<◌, ◌≤◌, true, List, [], take, length, All};
ghost use Rattle.helix_rows.specs.Regions.{piece, class_at, AreCellsTo, Continues, FitsBound, NoneFalls};
ghost use Rattle.helix_rows.specs.Parts.{HasAt, IsInPart, IsRegionOver};
ghost use Rattle.helix_rows.specs.Inner.Cells.{CanBeAsked};
ghost use Rattle.helix_rows.specs.Inner.Levels.{part_of, level_of, before_of, KeepRegions, IsLevel};
ghost use Rattle.helix_rows.specs.Inner.Answers.{IsOffered, IsFoundIf, best_of};
ghost use Rattle.std.specs.List.{sum_by};
ghost use Rattle.helix_values.specs.Class.{AreComparable, AreComparableRows};
ghost use Rattle.helix_values.specs.Counts.{IsMarkOf};
ghost use Rattle.helix_values.specs.Marks.{IsAdmitted};
ghost use Rattle.helix_values.specs.Slot.{FitsSlot};
ghost use Rattle.helix_values.specs.declared.cell.Cell.{Cell};

use crate::layout::Layout;
use crate::numbers::Numbers;
use crate::region::Region;
use helix_base::{Ledger, Steps};
use helix_values::{Mark, RowBuf, Slot, cmp_cell};
use std::cmp::Ordering;

/// The regions that gave the least cell so far, that cell, and a slot for the next answer.
#[derive(Drop)]
pub(crate) struct Found {
    pub(crate) numbers: Numbers,
    pub(crate) best: Slot,
    pub(crate) spare: Slot,
}

/// Asks one more region beside those that gave the least cell so far.
fn offer<R: Region, L: Ledger>(
    region: &mut R,
    number: u32,
    row: &RowBuf,
    position: usize,
    mark: Mark<'_>,
    found: &mut Found,
    steps: &mut Steps<L>,
)
    requires level { position < length (R.fields region.old) }
    requires fields { All (λ field. field < length row.now) (R.fields region.old) }
    requires cells { AreCellsTo position (R.fields region.old) (R.classes region.old) row.now }
    requires mark { IsMarkOf (class_at (R.classes region.old) position) mark }
    requires bound { FitsBound mark }
    requires comparable { (c : Cell)
        → Continues (R.HasRow region.old) (piece (take position (R.fields region.old)) row.now) c
        → (found.old.numbers.items ≡ []) ⊎ AreComparable c found.old.best }
    requires room { length found.old.numbers.items < found.old.numbers.room }
    ensures offered { IsOffered
        (Continues (R.HasRow region.old) (piece (take position (R.fields region.old)) row.now))
        (IsAdmitted mark.entry) number (best_of found.old) (best_of found.new) }
    ensures room { found.new.numbers.room ≡ found.old.numbers.room }
    ensures fields { R.fields region.new ≡ R.fields region.old }
    ensures classes { R.classes region.new ≡ R.classes region.old }
    ensures rows { (cells : List Cell) → R.HasRow region.new cells ↔ R.HasRow region.old cells }
    ensures asked { R.asked region.new ≤ R.asked region.old + 1 }
    ensures grows { R.asked region.old ≤ R.asked region.new }
    ensures steps { NoneFalls steps.old.counts steps.new.counts }
{
    if found.numbers.as_slice().is_empty() {
        if region.least(row, position, mark, &mut found.best, steps) {
            found.numbers.push(number);
        }
        return;
    }
    if !region.least(row, position, mark, &mut found.spare, steps) {
        return;
    }
    match cmp_cell(found.spare.view(), found.best.view()) {
        Ordering::Less => {
            found.best.set(found.spare.view());
            found.numbers.clear();
            found.numbers.push(number);
        }
        Ordering::Equal => found.numbers.push(number),
        Ordering::Greater => {}
    }
}

/// Asks regions of a field's part for the least cell that a mark admits, of those that the row's earlier cells go on
/// with.
pub(crate) fn least_of<R: Region, L: Ledger>(
    layout: &Layout,
    regions: &mut Vec<R>,
    among: &[u32],
    row: &RowBuf,
    field: usize,
    mark: Mark<'_>,
    found: &mut Found,
    steps: &mut Steps<L>,
) -> bool
    requires field { field < length layout.now.levels }
    requires level { IsLevel layout.now.parts field (level_of layout.now field) }
    requires regions { All (IsRegionOver R.fields regions.old.items (part_of layout.now field).fields) among.now }
    requires fields { All (λ field. field < length row.now) (part_of layout.now field).fields }
    requires comparable { (a b : List Cell) → IsInPart (HasAt R.HasRow regions.old.items) among.now a
        → IsInPart (HasAt R.HasRow regions.old.items) among.now b → AreComparableRows a b }
    requires room { length among.now ≤ found.old.numbers.room }
    requires askable { All (CanBeAsked R.classes regions.old.items (part_of layout.now field).fields
        (level_of layout.now field).position row.now mark) among.now }
    requires bound { FitsBound mark }
    ensures found { IsFoundIf (HasAt R.HasRow regions.old.items) among.now (before_of layout.now field row.now)
        (IsAdmitted mark.entry) result (best_of found.new) }
    ensures fits { result ≡ true → FitsSlot found.new.best }
    ensures few { length found.new.numbers.items ≤ found.new.numbers.room }
    ensures room { found.new.numbers.room ≡ found.old.numbers.room }
    ensures kept { KeepRegions R.fields R.classes R.asked R.HasRow regions.old.items regions.new.items }
    ensures asked { sum_by R.asked regions.new.items ≤ sum_by R.asked regions.old.items + length among.now }
    ensures steps { NoneFalls steps.old.counts steps.new.counts }
{
    let position = layout.levels.as_slice()[field].position;
    found.numbers.clear();
    for number in among {
        offer(
            &mut regions[*number as usize],
            *number,
            row,
            position,
            mark,
            found,
            steps,
        );
    }
    !found.numbers.as_slice().is_empty()
}
