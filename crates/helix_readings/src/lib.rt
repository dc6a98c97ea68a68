//! The constraints that a profile gives: its JSON value with the declared fields and the members of set files.
//!
//! ```
//! let sets = Sets::new(alloc);                        // no set files; see `SetMembers` for those that there are
//! match read_constraints(alloc, fields, &sets, &v)? {
//!     Some(constraints) => ..                         // one for each item of `constraints`
//!     None => ..                                      // some item gives none
//! }
//! ```
//!
//! [`read_constraints`] answers exactly the constraints that are given, and None where none are: a value gives at most
//! one list of them ([`laws::one_list`]). A constraint is given by the form of an object: an atomic one by the field
//! that it names and the test that its operand gives, a relation by its two fields and its offset, any other form by
//! what its operands give. An operand of `inSet` that is a string names a set file; its members are those of the first
//! of the [`Sets`] with the operand's place.
//!
//! No clause says what a call costs: a pass over the value, with a copy of each constraint's place, and for each set
//! file a search for its place among all sets and a copy of its members. Recursion is as deep as the value is nested.
//! Only memory that runs out makes a call fail.
//!
//! What a value gives is in `specs/Given.antt`, what the whole profile gives in `specs/Whole.antt`, the members of set
//! files in `specs/Sets.antt`.
#![tactic(auto)]

mod atom;
pub mod laws;
mod leaf;
mod made;
mod path;
mod reading;
mod sets;
mod whole;

pub use sets::{SetMembers, Sets};
pub use whole::read_constraints;

#[cfg(test)]
mod tests;
