//! The good rows of a profile, written into a data file.
//!
//! ```text
//! let mut rows = GoodRows::open(alloc, profile)?;
//! let some = rows.advance(&mut last);              // the first good row
//! let written = write_rows(disk, file, &mut rows, some, &mut last, &mut line, &mut block)?;
//! // written.rows rows are in the file; where written.cut is set, `last` is the last of them and more follow
//! ```
//!
//! What is proved:
//! - [`GoodRows`] is a place among the good rows of a profile (`specs/GoodRows.antt`), over the walk of helix_walk.
//! - [`write_rows`] writes exactly the rows above a start up to a limit (`specs/Rows.antt`), each once and in ascending
//!   order, tells whether they are cut, and then the last one (`specs/Writing.antt`). Where it fails, the file is as it
//!   was or holds a prefix of the text of these rows, and only lines of JSON can be wanting of memory.
//! - [`write_file`] writes a text (`specs/Files.antt`).
//!
//! Rows go out in blocks: neither the disk is called nor memory taken for each of them. No clause says what it costs.
#![tactic(auto)]

mod data_file;
mod file;
mod good_rows;
mod lines;
mod put;
mod rows;

pub use data_file::{DataFile, WriteFault, Written};
pub use file::write_file;
pub use good_rows::GoodRows;
pub use rows::write_rows;

#[cfg(test)]
mod tests;
