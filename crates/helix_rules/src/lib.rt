//! The rules on profiles, and the first that a JSON value breaks.
//!
//! ```
//! first_breach(alloc, Alphabet::Basic, &[Rule::S1], &v)?          // None, where the value is an object
//! match first_breach(alloc, Alphabet::Basic, &PROFILE_RULES, &v)? {
//!     Some(breach) => refuse(breach.rule, &breach.place),         // S9 at "#/constraints/0/field"
//!     None => read(&v),                                           // no rule is broken
//! }
//! ```
//!
//! A [`Rule`] has the name that a refusal shows. [`first_breach`] tries rules in the order in which they are handed in,
//! and answers the first that the value breaks with the first place in the text where it does, or None where it breaks
//! none of them; [`fault_of`] does so for one rule. They know the rules S1 to S21, each by a definition that looks at
//! its rule alone and is total; rules on the text, on profiles of the older form, on set files and on what a run asks
//! for are broken nowhere here. All of it is for values in which no object repeats a key, which is what a reader gives.
//!
//! The rules S8 to S20 are about constraints, each by itself, wherever it is in the profile. S21 is about their
//! relations in the order of the text: [`cycle_fault`] answers None only where the lines between related fields form a
//! forest.
//!
//! No clause says what a call costs: each rule is one search through the value, up to the first place, and the fields
//! are read once. Only memory that runs out makes a call fail.
//!
//! `specs/Broken.antt` has one line for each rule, `specs/Breaches.antt` says what the first breach is,
//! `specs/Atoms.antt` where an operand breaks a rule, `specs/Lines.antt` what relations form a cycle.
#![tactic(auto)]

mod atom;
mod breach;
mod checks;
mod cycle;
mod fault;
mod line;
mod lines;
mod rule;

pub use breach::{Breach, PROFILE_RULES, first_breach};
pub use cycle::cycle_fault;
pub use fault::fault_of;
pub use rule::Rule;

#[cfg(test)]
mod tests;
