//! The first value, and the one after another, with what is kept near them.

ghost use Rattle.std.specs.Prelude.{◌≡◌, ◌+◌, ◌*◌, ◌≤◌, IfOk};
ghost use Rattle.std.specs.List.{All, Contains};
ghost use Rattle.helix_automata.specs.Automaton.{most_arcs};
ghost use Rattle.helix_domains.specs.Asking.{most_moves};
ghost use Rattle.helix_domains.specs.Form as form;
ghost use Rattle.helix_domains.specs.Form.{AreAscending};
ghost use Rattle.helix_domains.specs.Inner.Values.{AreInForm, HasValue, form_of};
ghost use Rattle.helix_domains.specs.Inner.Walk.{TakesAt, KeepsAt, index_kept};
ghost use Rattle.helix_domains.specs.Near.{HasRoomNear, IsAt, IsNextAnswer};
ghost use Rattle.helix_values.specs.Class.{class_of_kind};
ghost use Rattle.helix_values.specs.Slot.{FitsSlot};
ghost use Rattle.helix_words.specs.Moves.{MovedAtMost};
ghost use Rattle.helix_words.specs.Questions.{IsLeastAnswer};
ghost use Rattle.helix_words.specs.Words.{IsWordCell};

use crate::grids::{first_moment, first_number, next_moment, next_number};
use crate::near::Near;
use crate::values::Values;
use helix_base::{Ledger, Memory, Steps};
use helix_values::{Cell, CellRef, Kind, Mark, Slot};
use helix_words::{Trail, Words};
use std::alloc::Global;

/// Room for what is kept near the values.
pub fn near_of(alloc: Global, values: &Values) -> Result<Near, Memory>
    ensures { IfOk result (HasRoomNear (form_of values.now)) }
{
    match values {
        Values::Listed(_) => Ok(Near::Listed(0)),
        Values::Numbers(_) | Values::Moments(_) => Ok(Near::OnGrid),
        Values::Texts(words) => Ok(Near::Spelt(Trail::open(alloc, words.longest_word())?)),
    }
}

/// Makes a slot the cell with an index, and keeps the index. Where the list ends before it, both stay.
#[inline(always)]
fn take_at(cells: &[Cell], index: usize, slot: &mut Slot, near: &mut Near) -> bool
    requires fit { All FitsSlot cells.now }
    requires room { HasRoomNear (form.listed cells.now) near.old }
    ensures { TakesAt cells.now index result slot.old slot.new near.old near.new }
{
    match near {
        Near::Listed(at) => match cells.get(index) {
            Some(cell) => {
                slot.set(cell.view());
                *at = index;
                true
            }
            None => false,
        },
        Near::OnGrid | Near::Spelt(_) => unreachable!(),
    }
}

/// The index that is kept.
#[inline(always)]
fn index_of(near: &Near) -> usize
    ensures { result ≡ index_kept near.now }
{
    match near {
        Near::Listed(index) => *index,
        Near::OnGrid | Near::Spelt(_) => 0,
    }
}

/// Makes a slot the first of the ascending cells.
#[inline(always)]
fn first_cell(cells: &[Cell], slot: &mut Slot, near: &mut Near) -> bool
    requires ascending { AreAscending cells.now }
    requires fit { All FitsSlot cells.now }
    requires room { HasRoomNear (form.listed cells.now) near.old }
    ensures answer { IsLeastAnswer (Contains cells.now) Mark.Start result slot.old slot.new }
    ensures near { KeepsAt (form.listed cells.now) result near.old near.new slot.new }
{
    take_at(cells, 0, slot, near)
}

/// Makes a slot that holds one of the ascending cells the one after it.
#[inline(always)]
fn next_cell(cells: &[Cell], slot: &mut Slot, near: &mut Near) -> bool
    requires ascending { AreAscending cells.now }
    requires fit { All FitsSlot cells.now }
    requires at { IsAt (form.listed cells.now) near.old slot.old }
    ensures answer { IsNextAnswer (Contains cells.now) result slot.old slot.new }
    ensures near { KeepsAt (form.listed cells.now) result near.old near.new slot.new }
{
    let _end = cells.len();
    let index = index_of(near);
    take_at(cells, index + 1, slot, near)
}

/// Makes a slot the first word.
fn first_word<L: Ledger>(
    words: &Words,
    slot: &mut Slot,
    near: &mut Near,
    steps: &mut Steps<L>,
) -> bool
    requires short { words.now.longest ≤ 1000 }
    requires room { HasRoomNear (form.spelt words.now) near.old }
    ensures answer { IsLeastAnswer (IsWordCell words.now) Mark.Start result slot.old slot.new }
    ensures near { KeepsAt (form.spelt words.now) result near.old near.new slot.new }
    ensures moves { MovedAtMost L.IsNoted (1001 + 2002 * (1 + most_arcs words.now.automaton)) steps.old steps.new }
{
    match near {
        Near::Spelt(trail) => {
            if words.first(trail, steps) {
                slot.set(CellRef::Text(trail.word()));
                true
            } else {
                false
            }
        }
        Near::Listed(_) | Near::OnGrid => unreachable!(),
    }
}

/// Makes a slot that holds a word the one after it.
#[inline(always)]
fn next_word<L: Ledger>(
    words: &Words,
    slot: &mut Slot,
    near: &mut Near,
    steps: &mut Steps<L>,
) -> bool
    requires short { words.now.longest ≤ 1000 }
    requires room { HasRoomNear (form.spelt words.now) near.old }
    requires at { IsAt (form.spelt words.now) near.old slot.old }
    ensures answer { IsNextAnswer (IsWordCell words.now) result slot.old slot.new }
    ensures near { KeepsAt (form.spelt words.now) result near.old near.new slot.new }
    ensures moves { MovedAtMost L.IsNoted (1001 + 2002 * (1 + most_arcs words.now.automaton)) steps.old steps.new }
{
    match near {
        Near::Spelt(trail) => {
            if words.next(trail, steps) {
                slot.set(CellRef::Text(trail.word()));
                true
            } else {
                false
            }
        }
        Near::Listed(_) | Near::OnGrid => unreachable!(),
    }
}

/// Makes a slot the least value of a kind.
pub fn first_value<L: Ledger>(
    kind: Kind,
    values: &Values,
    slot: &mut Slot,
    near: &mut Near,
    steps: &mut Steps<L>,
) -> bool
    requires form { AreInForm (class_of_kind kind) values.now }
    requires room { HasRoomNear (form_of values.now) near.old }
    ensures answer { IsLeastAnswer (HasValue values.now) Mark.Start result slot.old slot.new }
    ensures near { KeepsAt (form_of values.now) result near.old near.new slot.new }
    ensures moves { MovedAtMost L.IsNoted (most_moves (class_of_kind kind)) steps.old steps.new }
{
    match values {
        Values::Listed(cells) => first_cell(cells.as_slice(), slot, near),
        Values::Numbers(grid) => first_number(grid, Mark::Start, slot),
        Values::Moments(grid) => first_moment(grid, Mark::Start, slot),
        Values::Texts(words) => first_word(words, slot, near, steps),
    }
}

/// Makes a slot that holds a value of a kind the least one above it.
#[inline(always)]
pub fn next_value<L: Ledger>(
    kind: Kind,
    values: &Values,
    slot: &mut Slot,
    near: &mut Near,
    steps: &mut Steps<L>,
) -> bool
    requires form { AreInForm (class_of_kind kind) values.now }
    requires value { HasValue values.now slot.old }
    requires room { HasRoomNear (form_of values.now) near.old }
    requires at { IsAt (form_of values.now) near.old slot.old }
    ensures answer { IsNextAnswer (HasValue values.now) result slot.old slot.new }
    ensures near { KeepsAt (form_of values.now) result near.old near.new slot.new }
    ensures moves { MovedAtMost L.IsNoted (most_moves (class_of_kind kind)) steps.old steps.new }
{
    match values {
        Values::Listed(cells) => next_cell(cells.as_slice(), slot, near),
        Values::Numbers(grid) => next_number(grid, slot),
        Values::Moments(grid) => next_moment(grid, slot),
        Values::Texts(words) => next_word(words, slot, near, steps),
    }
}
