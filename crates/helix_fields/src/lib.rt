//! The fields of a profile: the rules S1 to S7 on the profile as a whole and on its fields, and the fields it declares.
//!
//! ```
//! field_list_fault(alloc, &v)?               // Some of the place "#/fields", where `fields` is no list
//! field_fault(alloc, &v)?                    // None, where no field breaks S4
//! read_fields(alloc, Alphabet::Basic, &v)?   // the fields, in their declared order
//! constraints_in(&v)                         // the items of `constraints`
//! kind_named(Alphabet::Basic, &word)         // Some(Kind::Date) for "date"
//! ```
//!
//! Each rule is a property of places in the value, which looks at its rule alone: [`object_fault`] answers for S1,
//! [`profile_key_fault`] for S2, [`field_list_fault`] for S3, [`field_fault`] for S4, [`name_fault`] for S5,
//! [`unique_fault`] for S6 and [`constraint_list_fault`] for S7. Each answers the first place in the text where its
//! rule is broken, or None where it is broken nowhere, of a value in which no object repeats a key.
//!
//! [`read_fields`] gives the fields of any value. Where S3 and S4 are broken nowhere no field lacks its name or type,
//! and where S5 is broken nowhere either they are valid: 1 to 64 fields with names, no two of which are the same.
//!
//! [`value_in`], [`within`] and [`refused_at`] are steps of such searches, for the crates above; what follows from them
//! is in `specs/SearchLaws.antt` and `specs/RefusalLaws.antt`.
//!
//! No clause says what a call costs: each looks at a member or a field a fixed number of times, but compares each name
//! with all earlier ones. Only memory that runs out makes a call fail.
//!
//! The rules are in `specs/Whole.antt` and `specs/FieldRules.antt`, the types in `specs/Types.antt`, the fields in
//! `specs/Fields.antt`; places and their order in the text in helix_places.
#![tactic(auto)]

mod faulty;
mod field;
mod fields;
mod kinds;
mod names;
mod parts;
mod whole;

pub use field::{field_fault, unique_fault};
pub use fields::{constraints_in, read_fields};
pub use kinds::kind_named;
pub use names::name_fault;
pub use parts::{refused_at, value_in, within};
pub use whole::{constraint_list_fault, field_list_fault, object_fault, profile_key_fault};

#[cfg(test)]
mod tests;
