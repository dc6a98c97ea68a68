//! A profile with one constraint violated.
//!
//! ```
//! violate(alloc, &mut profile, 1)?;    // constraint 1 becomes `not` of itself
//! ```
//!
//! [`violate`] puts the negation of one constraint, which is counted from 1, in that constraint's
//! place, and changes nothing else. The negation is that of constraints, not the complement: nulls
//! may satisfy both the constraint and its negation. A number that no constraint has is refused with
//! the number of constraints; then, as where memory runs out, the profile is unchanged.
//!
//! The definition is `violating` in `specs/Violation.antt` of helix_profile.
#![tactic(auto)]

mod fault;
mod violation;

pub use fault::ViolateFault;
pub use violation::violate;

#[cfg(test)]
mod tests;
