//! Profiles of the older form, whose constraints stand in named rules, as profiles of today's form.
//!
//! ```
//! if is_older(&json) {
//!     json = today(alloc, &json)?;    // or Refused(LegacyRule::L4, "#/rules/1/constraints/0/is")
//! }
//! rule_number(&json, &name)           // of the older value: Some(1) for the first rule
//! ```
//!
//! [`is_older`] says whether a value is an object with the member `rules`. [`today`] gives today's form of such a
//! value, and then no rule of the older form is broken; or the first of the rules L1 to L4 that is, with the pointer of
//! its first place in the text. Running out of memory breaks none. Today's form repeats no key, is nested no deeper
//! than the value, and its numbers are JSON numbers where the value's are. [`rule_number`] finds a rule by its name;
//! [`rule_count`] tells whether there are few enough.
//!
//! No clause says what a call costs: `today` looks at each part of the value a fixed number of times, but compares each
//! rule's name with all earlier ones; recursion is as deep as the value is nested. The questions take no memory.
//!
//! The rules are in `specs/Broken.antt`, `specs/Tests.antt` and `specs/Visited.antt`, today's form in
//! `specs/Today.antt`; places, their order in the text and their pointers in helix_places.
#![tactic(auto)]

mod breach;
mod convert;
mod fault;
mod form;
mod names;
mod older;
mod shape;
mod table;
mod visit;
mod whole;

pub use fault::{LegacyFault, LegacyRule};
pub use older::{is_older, rule_count, rule_number, today};

#[cfg(test)]
mod tests;
