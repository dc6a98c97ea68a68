//! The operands of atomic keywords: the test that one gives for a field of a kind, or where it breaks which rule.
//!
//! ```
//! let operand = read(alloc, b"[1, \"x\", 2.5]")?;
//! operand_fault(alloc, OperandRule::Type, Kind::Integer, Keyword::InSet, &operand)?     // at 1: "x" is a string
//! operand_fault(alloc, OperandRule::Value, Kind::Integer, Keyword::InSet, &operand)?    // at 2: 2.5 is not whole
//! read_test(alloc, Kind::Integer, Keyword::GreaterThan, &bound)?                        // Test::Above, of 2.5
//! ```
//!
//! [`operand_fault`] gives the first place where one of the rules S11 to S16 is broken ([`OperandRule`]): the operand
//! itself or a member of its list. [`read_test`] gives the test of an operand, and None where it gives none. An operand
//! gives at most one test, and then one for the kind; one that breaks no rule gives a test, unless it names a set file
//! ([`laws`]). A rule that isn't about the keyword, or about a value of this JSON type, is not broken.
//!
//! No clause says what a call costs: a pass over the operand, with a copy of each text of a list.
//!
//! What operands give is in `specs/Values.antt` and `specs/Tests.antt`, the rules in `specs/Rules.antt`. Lemmas for the
//! crates above are in `specs/UniqueLaws.antt`, `specs/FitLaws.antt` and `specs/UnbrokenLaws.antt`.
#![tactic(auto)]

mod fault;
mod faulty;
mod grids;
mod json_type;
pub mod laws;
mod lengths;
mod members;
mod patterns;
mod rule;
mod test;
mod units;
mod values;

pub use fault::operand_fault;
pub use rule::OperandRule;
pub use test::{names_set_file, read_test};

#[cfg(test)]
mod tests;
