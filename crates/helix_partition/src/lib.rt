//! Groups of fields that share no constraint.
//!
//! ```
//! for part in partitions(alloc, &profile)?.as_slice() {
//!     walk(part.fields.as_slice(), part.constraints.as_slice());   // positions from 0
//! }
//! ```
//!
//! Two fields are linked where a chain of constraints leads from one to the other, each sharing a
//! field with the next. [`partitions`] answers the groups of linked fields, in the order of their
//! least fields, each with the constraints on its fields. Every field and every constraint is in
//! exactly one of them, and a constraint is in that of all fields that it names. So the rows of a
//! profile are put together from those of its groups, each by itself.
//!
//! It costs a pass over all fields for each mention of a field in a constraint, and no search.
//!
//! The groups are defined in `specs/Groups.antt`, by the chains of `specs/Width.antt` of helix_profile.
#![tactic(auto)]

mod groups;
mod join;
mod labels;
mod named;
mod partition;

pub use groups::partitions;
pub use partition::{Partition, Partitions};

#[cfg(test)]
mod tests;
