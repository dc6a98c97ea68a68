//! The identity of a run, and the token from which its rows go on.
//!
//! ```text
//! let wanted = identity(profile_bytes, b"mode full", files.as_slice());
//! let token = write_token(alloc, &wanted, fields, &last_row)?;
//!     // {"format":"helix-token-1","identity":"5d41...","row":["=TR000001","n"]}
//! match read_token(alloc, bytes, &wanted, fields) {
//!     Ok(row) => ..,                                  // the cells of the last row
//!     Err(TokenFault::Cell { index }) => ..,          // the cell of this index is none of its field
//!     Err(fault) => ..,                               // Form, OtherProfile { found, wanted } or Memory
//! }
//! ```
//!
//! What is proved:
//! - [`identity`] is the SHA-256 digest of the profile, the mode line and the set files, each after its length
//!   (`specs/Identity.antt`). It takes no memory.
//! - [`write_token`] gives exactly the text that `serde_json` writes for the token's object (`specs/Token.antt`).
//! - [`read_token`] gives the row whose token the bytes are, alone or with one line feed, and else the first fault of
//!   three: another form, another profile, the least faulty cell (`specs/Broken.antt`). Only memory is left open.
//! - A token tells its row, and of at most 64 fields every row has one that no fault breaks: [`laws`].
//!
//! JSON is read and written by the ported `json`, digests are those of `sha2`, digits those of `hex`. No clause says
//! what a call costs: time and memory in proportion to the bytes, with no recursion.
#![tactic(auto)]

mod cells;
mod digest;
mod fault;
mod form;
pub mod laws;
mod read;
mod seeming;
mod write;

pub use digest::identity;
pub use fault::TokenFault;
pub use read::read_token;
pub use write::write_token;

#[cfg(test)]
mod tests;
