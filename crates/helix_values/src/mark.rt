//! From where on a value is asked for.

use crate::cell::CellRef;

/// A bound from below in the order of cells. `specs/Marks.antt` says which cells it admits.
#[derive(Clone, Copy, Debug)]
pub enum Mark<'a> {
    /// From the first value on.
    Start,
    /// From this value on.
    At(CellRef<'a>),
    /// Above this value.
    After(CellRef<'a>),
}
