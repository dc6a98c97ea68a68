//! The members of a set, read from a file.
//!
//! ```
//! let cells = members(alloc, Kind::Integer, b"2\n1,x\n\"2\"\n")?;    // 2, 1 and 2
//! ```
//!
//! [`members`] reads the bytes of a file as comma-separated values without a header. The first field of
//! each record is a member: it spells a value of a kind, as `read_cell` of helix_texts reads it. Other
//! fields are passed over, and members may repeat. Where bytes are no set, the fault tells why, and the
//! first faulty record decides; nothing but want of memory is free of a cause.
//!
//! The records are those that the crate `csv` gives by its contract, after the marks EF BB BF at the
//! beginning of the file are dropped, as often as they are there. `csv` reads bytes that are in memory; should
//! its reader fail, that counts as want of memory.
//!
//! No clause says what it costs: a pass over the bytes, a copy of one record at a time, and the members.
//!
//! The definitions are in `specs/SetFiles.antt`.
#![tactic(auto)]

mod fault;
mod marks;
mod member;
mod records;
mod set_file;

pub use fault::SetFault;
pub use set_file::members;

#[cfg(test)]
mod tests;
