//! The values of fields: kinds and their universes, cells and rows with their order, and the check
//! rules of codes.
//!
//! ```text
//! let mut row = RowBuf::open(alloc, 2)?;                    // null, null
//! row.slot_mut(0).set(CellRef::Number(5));                  // takes no memory
//! let order = cmp_cell(row.slot(0).view(), CellRef::Null);  // Less: null is last
//! let valid = in_universe(Kind::Integer, row.slot(0).view());  // false: 5 * 10^-15 is not whole
//! ```
//!
//! A number is kept in whole units of 10^-15, a moment in milliseconds from
//! 0001-01-01T00:00:00.000, a text as its code points.
//!
//! - [`in_universe`] tells the values of a [`Kind`], [`valid`] the words of a [`Code`]; `codes` has what
//!   one character of a code's word is and adds.
//! - [`cmp_cell`] and [`cmp_row`] are total orders; a [`Mark`] is a bound from below in that order.
//! - A [`Slot`] holds a cell without memory, a [`RowBuf`] a row of slots. [`RowBuf::slot_mut`] borrows
//!   one slot, and the other cells stay.
//! - `laws`: the universe of each kind lies in the widest one of its class, alphabets hold the smaller
//!   ones, whole numbers and dates are the values on a level of their ladders, and a mark that admits
//!   less leaves fewer values.
//!
//! A slot has room for 1,000 characters in itself: keep it in an object, not among the locals of a
//! function. The definitions are in `specs/`: `Universe` and `Order` first. The ladders of numbers and
//! moments are those of `helix_ladders`, and can be imported from here too.
#![tactic(auto)]

mod cell;
mod cells;
pub mod codes;
mod held;
mod kind;
pub mod laws;
mod mark;
mod on_grid;
mod order;
mod row_buf;
mod slot;
mod universe;

pub use cell::{Cell, CellRef};
pub use cells::{Cells, Row};
pub use codes::valid;
pub use helix_ladders::{
    Calendar, Date, Decades, Offset, Plain, Scale, Shift, date_of, day_number, days_of_month,
    shifted,
};
pub use kind::{Code, Kind};
pub use mark::Mark;
pub use on_grid::is_on_grid;
pub use order::{cmp_cell, cmp_row};
pub use row_buf::RowBuf;
pub use slot::Slot;
pub use universe::in_universe;

#[cfg(test)]
mod tests;
