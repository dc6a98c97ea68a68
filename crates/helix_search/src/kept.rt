//! Marks whose bound lies in a slot.

ghost use Rattle.std.specs.Prelude.{◌↔◌, IsTrue};
ghost use Rattle.helix_search.specs.Bounds.{FitsBound};
ghost use Rattle.helix_search.specs.Inner.Kept.{IsMarkKept, IsComparableMark};
ghost use Rattle.helix_values.specs.Marks.{IsAdmitted};
ghost use Rattle.helix_values.specs.View.{cell_of};

use helix_values::{CellRef, Mark, Slot, cmp_cell};
use std::cmp::Ordering;

/// A mark without its bound.
#[derive(Clone, Copy, Debug)]
pub enum Side {
    Start,
    At,
    After,
}

/// What a node's neighbours say of its candidate.
#[derive(Clone, Copy, Debug)]
pub enum Verdict {
    /// It stands.
    Stands,
    /// It doesn't; the mark, whose bound is kept, admits each greater one that does.
    Raise(Side),
    /// Neither it nor a greater one stands.
    Fails,
}

/// Keeps the bound of a mark in a slot.
pub fn keep(mark: Mark<'_>, bound: &mut Slot) -> Side
    requires { FitsBound mark }
    ensures { IsMarkKept mark.entry result bound.new }
{
    match mark {
        Mark::Start => Side::Start,
        Mark::At(cell) => {
            bound.set(cell);
            Side::At
        }
        Mark::After(cell) => {
            bound.set(cell);
            Side::After
        }
    }
}

/// The mark that is kept.
pub fn kept(side: Side, bound: &Slot) -> Mark<'_>
    ensures { IsMarkKept result side bound.now }
{
    match side {
        Side::Start => Mark::Start,
        Side::At => Mark::At(bound.view()),
        Side::After => Mark::After(bound.view()),
    }
}

/// Whether a mark admits a value.
pub fn admits(mark: Mark<'_>, value: CellRef<'_>) -> bool
    requires { IsComparableMark mark (cell_of value) }
    ensures { IsTrue result ↔ IsAdmitted mark.entry (cell_of value.entry) }
{
    match mark {
        Mark::Start => true,
        Mark::At(bound) => cmp_cell(value, bound) != Ordering::Less,
        Mark::After(bound) => cmp_cell(bound, value) == Ordering::Less,
    }
}
