//! All good rows of a profile, in ascending order.
//!
//! ```text
//! let mut walk = Walk::open(alloc, &profile)?;
//! while let Some(kept) = walk.step(&mut steps) {
//!     print(walk.row());                    // its first `kept` cells are those of the row before
//! }
//! walk.seek_after(&row);                    // any row of the right shape: the next step gives the least one above it
//! while walk.advance(&mut row, &mut steps) {
//!     keep(&row);
//! }
//! ```
//!
//! The fields of a profile are in groups that share no constraint, and each group has regions: sets of rows over its
//! fields, of which a row of cells is in one exactly where it satisfies the constraints of the group. So a row is good
//! exactly where it has one cell for each field and its cells of each group's fields are a row of one of its regions.
//!
//! What is promised:
//! - [`Walk::open`] opens a walk in whose parts a row is exactly where it is good, and no part of which has more
//!   regions than the width of the profile. The place is nothing.
//! - [`Walk::step`] and [`Walk::advance`] make the least row above the place the new place, and say that there is none
//!   exactly where no row is above the place. They change neither the rows nor the fields of the walk.
//! - [`Walk::seek_after`] makes any row of the right shape the place.
//! - [`laws`]: rows of which each is the next one are a prefix of the rows above the start, and all of them where no row
//!   is above the end; prefixes are joined; and what was said above of rows and groups.
//!
//! Only [`Walk::open`] takes memory, for all regions at once. More than 2^32 regions count as want of memory. A step
//! asks at most two questions for each field and each region of the part that has the most; no clause says what a question
//! costs. The definitions are in `specs/`.
#![tactic(auto)]

mod gather;
pub mod laws;
mod walk;

pub use walk::Walk;

#[cfg(test)]
mod tests;
