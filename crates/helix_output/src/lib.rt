//! The text of rows as CSV and as JSON, a line at a time, and its way to a disk.
//!
//! ```text
//! let mut line = LineBuf::open(alloc, profile.fields())?;
//! let mut block = Block::open(alloc, 65_536)?;
//! csv_head(&mut line);                                // "id","flag"
//! block.add(disk, line.bytes())?;
//! csv_row(&mut line, &row);                           // "TR000001",true
//! csv_next(&mut line, &next_row, 1);                  // writes the cells from number 1 on again
//! block.flush(disk)?;                                 // Ok: every byte that was added is in the file
//! ```
//!
//! What is proved:
//! - [`csv_head`], [`csv_row`], [`csv_next`], [`json_open`], [`json_row`] and [`json_close`] leave exactly the line
//!   that the definitions give (`specs/Csv.antt`, `specs/JsonLines.antt`), for every row that fits the fields
//!   (`specs/Fitting.antt`). Of these only [`json_row`] takes memory.
//! - [`put_all`] appends all bytes, or a prefix of them where the count of write faults rose. A [`Block`] loses no byte
//!   and repeats none: what is out and what is owed are together what was added (`specs/Writing.antt`).
//! - Two different lists of rows have different texts, in each format: [`laws`].
//!
//! JSON strings are those of the ported `serde_json`; CSV is that of RFC 4180. A CSV line keeps where its cells end, so
//! that a row that differs from the one before in its last cells costs these cells alone. No clause says what a call
//! costs.
#![tactic(auto)]

mod block;
mod cells;
mod csv_lines;
mod fitting;
mod format;
mod json_lines;
pub mod laws;
mod line;
mod names;
mod put;
mod writing;

pub use block::Block;
pub use csv_lines::{csv_head, csv_next, csv_row};
pub use format::Format;
pub use json_lines::{json_close, json_open, json_row};
pub use line::LineBuf;
pub use writing::put_all;

#[cfg(test)]
mod tests;
