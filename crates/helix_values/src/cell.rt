//! A cell: null or a value.

ghost use Rattle.std.specs.Prelude.{◌≡◌, IfOk};
ghost use Rattle.helix_values.specs.View.{cell_of};

use helix_base::{Memory, Text, TryCopy};
use std::alloc::Global;

/// Null or a value of a field.
#[derive(Debug, Drop)]
pub enum Cell {
    /// No value.
    Null,
    /// A truth value.
    Bool(bool),
    /// A number, in units of 10^-15.
    Number(i128),
    /// A moment, in milliseconds from 0001-01-01T00:00:00.000 of the proleptic Gregorian calendar,
    /// without a time zone or leap seconds.
    Moment(i64),
    /// A text.
    Text(Text),
}

/// A [`Cell`] that is borrowed, with a text as its code points.
#[derive(Clone, Copy, Debug, PartialEq)]
pub enum CellRef<'a> {
    Null,
    Bool(bool),
    Number(i128),
    Moment(i64),
    Text(&'a [u32]),
}

impl Cell {
    /// The cell, borrowed.
    pub fn view(&self) -> CellRef<'_>
        ensures { cell_of result ≡ self.now }
    {
        match self {
            Cell::Null => CellRef::Null,
            Cell::Bool(truth) => CellRef::Bool(*truth),
            Cell::Number(units) => CellRef::Number(*units),
            Cell::Moment(millis) => CellRef::Moment(*millis),
            Cell::Text(text) => CellRef::Text(text.codes()),
        }
    }

    /// An equal cell.
    pub fn copy(&self, alloc: Global) -> Result<Cell, Memory>
        ensures { IfOk result (λ copy. copy ≡ self.now) }
    {
        Ok(match self {
            Cell::Null => Cell::Null,
            Cell::Bool(truth) => Cell::Bool(*truth),
            Cell::Number(units) => Cell::Number(*units),
            Cell::Moment(millis) => Cell::Moment(*millis),
            Cell::Text(text) => Cell::Text(text.copy(alloc)?),
        })
    }
}

impl TryCopy for Cell {
    fn try_copy(&self, alloc: Global) -> Result<Cell, Memory> {
        self.copy(alloc)
    }
}
