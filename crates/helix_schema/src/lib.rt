//! The profile that a JSON value gives, or the first rule that it breaks.
//!
//! ```text
//! let mut draft = read_profile(alloc, Alphabet::Unicode, json)?;  // or Refused: S12 at #/constraints/0/equalTo
//! while let Some(wanted) = draft.next_wanted() {                  // its set files, in the order of the text
//!     let members = members(alloc, wanted.kind, bytes_of(wanted.name))?;
//!     draft.fill(members);
//! }
//! let profile = draft.finish(alloc)?;
//! ```
//!
//! [`read_profile`] takes a value of either form. It refuses a value that breaks one of the rules S1, L1 to L4 and S2
//! to S21, tried in this order, with the first place in the text where the first of them is broken; a place of the
//! rules S2 to S21 is one in today's form of the value. Else it answers a [`Draft`]: the value with the set files that
//! it mentions. [`Draft::next_wanted`] names the first one that isn't read, [`Draft::fill`] takes its members, and
//! [`Draft::finish`] makes the profile. That is always possible once all files are read: only memory can be wanting.
//!
//! No clause says what a call costs: reading is one search through the value for each rule, up to the first place, and
//! one walk for the set files; `next_wanted` and `fill` look at the mentions before the one that is wanted and take no
//! memory; `finish` goes through the value once and copies the members of each set file.
//!
//! What is refused is in `specs/Refusals.antt`, which set files are mentioned in `specs/Mentions.antt`, what a draft is
//! and what profile it gives in `specs/Drafts.antt`.
#![tactic(auto)]

mod draft;
mod fault;
pub mod laws;
mod mention;
mod mentions;
mod read;
mod refusal;
mod wanted;
mod whole;
mod wish;

pub use draft::{Draft, Unfinished};
pub use fault::SchemaFault;
pub use mention::Mention;
pub use read::read_profile;
pub use refusal::{Location, Refusal};
pub use wanted::Wanted;
pub use wish::Wish;

#[cfg(test)]
mod tests;
