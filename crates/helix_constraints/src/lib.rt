//! The constraints of a profile, wherever they are, and a search over all of them for the first place that breaks a
//! rule.
//!
//! ```
//! first_in_constraints(alloc, &FormRule, &v)?     // S8: Some of the place "#/constraints/2/not"
//! first_in_constraints(alloc, &SizeRule, &v)?     // S17: None, where no `anyOf` or `allOf` is empty
//! ```
//!
//! A [`ConstraintRule`] says where a constraint breaks it by itself. [`first_in_constraints`] answers the first place
//! in the text where a constraint of the value breaks it: one in the list `constraints`, or one within such a
//! constraint. [`FormRule`] is S8, [`SizeRule`] is S17.
//!
//! No clause says what a call costs: the search asks the rule once of each constraint up to the first that breaks it.
//! Recursion is as deep as the value is nested. Only memory that runs out makes a call fail.
//!
//! `specs/Visited.antt` says which constraints a value has, `specs/Rules.antt` where the two rules are broken. A rule
//! owes that a place it names within a constraint that has others within it is the constraint itself; lemmas for that
//! are in `specs/AloneLaws.antt`.
#![tactic(auto)]

mod form_rule;
mod role;
mod rule;
mod walk;

pub use form_rule::{FormRule, SizeRule};
pub use rule::ConstraintRule;
pub use walk::first_in_constraints;

#[cfg(test)]
mod tests;
