//! The texts of values: the one written form of each, and the texts that are read as it.
//!
//! ```text
//! let mut out = [0; 48];
//! let len = small_text(Kind::Date, CellRef::Moment(0), &mut out);     // "0001-01-01" in out[..10]
//! let text = Text::of(alloc, "2024-02-29T10:20:30.005Z")?;
//! let cell = read_cell(alloc, Kind::DateTime, &text)?;                // CellFault::NotOfKind where it is none
//! ```
//!
//! - [`cell_text`], [`moment_text`] and, without memory, [`small_text`] are the written form of a value.
//! - [`read_cell`] and [`moment_of`] read exactly the texts that spell one.
//! - Different values have different texts, and what is written is read back: `laws`.
//!
//! `small_text` costs two digits at a time and no division by a step that isn't a constant. The
//! definitions are in `specs/`: `Texts` for the written form, `Spelling` for all texts that are read
//! as a value.
#![tactic(auto)]

mod digits;
mod fault;
pub mod laws;
mod moments;
mod put;
mod read;
mod texts;
mod written;

pub use fault::CellFault;
pub use moments::moment_of;
pub use read::read_cell;
pub use texts::small_text;
pub use written::{cell_text, moment_text};

#[cfg(test)]
mod tests;
