//! All constraints of a profile's JSON value, in the order of the text.
//!
//! ```text
//! impl Collector for Mentions { .. fn visit(&mut self, path, v) .. }   // what one constraint adds
//! collect(alloc, &mut mentions, &v)?;                                  // for each constraint, in their order
//! ```
//!
//! A constraint stands in the list `constraints`, or within a constraint: as an operand of `not`, `if`, `then` or
//! `else`, or in a list of `anyOf` or `allOf`. [`collect`] hands each to a [`Collector`], with the steps to it, and then
//! those within it. What the collector adds for one constraint is its own affair; what is found in the end is that of
//! all constraints, one after the other.
//!
//! No clause says what it costs: a look at the form of each object, and a copy of the key of each member on the way.
//! Recursion is as deep as the value is nested.
//!
//! The order of constraints is in `specs/Traversal.antt`.
#![tactic(auto)]

mod collector;
mod inside;
mod walk;

pub use collector::Collector;
pub use walk::collect;
