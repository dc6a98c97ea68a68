//! The profile of a run, loaded from its file and the set files that it mentions.
//!
//! ```text
//! match load(alloc, disk, &name, Alphabet::Basic, Some(2)) {
//!     Ok(loaded) => walk(loaded.profile),              // constraint 2 is violated in it
//!     Err(LoadFault::Refused(refused)) => ..,          // S22 at #/constraints/0/inSet
//!     Err(LoadFault::Read) => ..,                      // a file isn't there, or the disk failed
//!     Err(LoadFault::Memory) => ..,
//! }
//! ```
//!
//! What is proved of [`load`] (`specs/Loading.antt`): it only reads. Where the disk tells its files, the profile is the
//! one that the file and its set files give (`specs/Sources.antt`), or the refusal names the first broken rule with its
//! first place, or a file that is to be read isn't there; the disk's failures are counted. The identity is that of the
//! profile's bytes, the mode line and the set files. [`read_file`] reads a whole file (`specs/Files.antt`).
//!
//! No clause says what it costs: each file is read once, and its bytes are kept until the identity is known.
#![tactic(auto)]

mod choosing;
mod draft;
mod loaded;
mod loading;
mod mode;
mod reading;
mod set_files;

pub use loaded::{LoadFault, Loaded};
pub use loading::load;
pub use reading::{ReadError, read_file};
