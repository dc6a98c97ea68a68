//! The fields that a constraint names: the rules on them, and the relation that it gives.
//!
//! ```
//! for rule in [ReferenceRule::Reference, ReferenceRule::Class, ..] {
//!     if let Some(place) = reference_fault(alloc, rule, fields, &constraint)? { .. }   // S9 at "#/field"
//! }
//! let field = field_of(fields, members);                     // Some(0): the member `field` names the first field
//! let relation = read_relation(fields, members, keyword);    // Some(Relation { left: 0, right: 1, .. })
//! ```
//!
//! [`reference_fault`] finds the first place where a constraint itself breaks one of the rules S9, S10, S18, S19 and
//! S20; constraints within it are left aside. [`read_relation`] gives the relation of a constraint that has the form of
//! one, and None where none is given. Where the constraint breaks none of the rules, it gives one, and that is one for
//! its two fields ([`laws::relations_are_valid`]); there is at most one ([`laws::one_relation`]). An atomic constraint
//! that breaks none of them names a field, and its keyword is for that field ([`laws::keywords_are_for_their_fields`]).
//!
//! Whether an offset between moments is whole is decided exactly, for a number of any length and exponent.
//!
//! No clause says what a call costs: a name is compared with those of the fields up to its own, and a number is looked
//! at a few times. Only the place of a fault takes memory.
//!
//! Names are in `specs/Naming.antt`, the rules in `specs/Rules.antt` and for offsets in `specs/Offsets.antt` and
//! `specs/Units.antt`, relations in `specs/Relations.antt`. Lemmas for the crates above are in the files of `specs/`
//! that end in `Laws`.
#![tactic(auto)]

mod digits;
mod fields;
pub mod laws;
mod naming;
mod offset;
mod relation;
mod rule;
mod unit;
mod whole;

pub use naming::{field_named, field_of};
pub use relation::read_relation;
pub use rule::{ReferenceRule, reference_fault};

#[cfg(test)]
mod tests;
