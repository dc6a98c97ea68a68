//! The environment of a run: a disk and a console, as two traits, with implementations for tests.
//!
//! ```text
//! let mut disk = MemoryDisk::open(files, Calls::new(alloc));
//! disk.begin_write("o.csv", false)?;          // a file that is there is left as it is: an error
//! let taken = disk.write(b"1,2")?;            // appends a prefix, at least one byte, and answers its length
//! disk.finish()?;
//! disk.file("o.csv")                          // Some(b"1,2"[..taken])
//! ```
//!
//! What is promised of each call of a [`Disk`] and a [`Console`] is one record: what it does, what a failure leaves,
//! and that a failure is counted, once (`specs/Disk.antt`, `specs/Console.antt`, `specs/Count.antt`). A disk may tell
//! what its files hold, or not; files are a map from names to bytes (`specs/Files.antt`).
//!
//! - [`MemoryDisk`] and [`MemoryConsole`] tell everything. A call whose number they are given fails and changes
//!   nothing.
//! - [`SteadyDisk`] and [`SteadyConsole`] never fail, and keep nothing of what is written.
//!
//! What a call costs is no clause: [`Files`] are a list, so looking a name up takes time in proportion to their number.
#![tactic(auto)]

mod calls;
mod console;
mod counting;
mod disk;
mod entries;
mod files;
mod input;
mod memory_console;
mod memory_disk;
mod steady_console;
mod steady_disk;

pub use calls::Calls;
pub use console::Console;
pub use disk::{Disk, Failed};
pub use files::Files;
pub use memory_console::MemoryConsole;
pub use memory_disk::MemoryDisk;
pub use steady_console::SteadyConsole;
pub use steady_disk::SteadyDisk;

#[cfg(test)]
mod tests;
