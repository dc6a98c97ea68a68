//! Whether the pairs of fields that relations join form no cycle.
//!
//! ```
//! check_forest(alloc, 3, &relations)?;    // ForestFault::Cycle { index }: the first one that closes a cycle
//! ```
//!
//! Fields that are related, with the relations as lines between them, are a forest where no way leads
//! from a field along different fields back to it. Several relations between the same two fields, in
//! whatever order, are one line. [`check_forest`] answers `Ok` exactly where the relations are a forest, and
//! otherwise names the first relation that joins two fields anew which earlier ones join already, be it
//! by others in between. Only want of memory is free of a cause.
//!
//! No clause says what it costs: a label for each field and a copy of each relation that joins two trees,
//! of which there are fewer than fields; a pass over the labels for each of these; and for each other
//! relation a look at them.
//!
//! A forest is defined in `specs/Forest.antt` of helix_profile, and what closes a cycle in `specs/Closing.antt`.
#![tactic(auto)]

mod fault;
mod forest;
mod labels;

pub use fault::ForestFault;
pub use forest::check_forest;

#[cfg(test)]
mod tests;
