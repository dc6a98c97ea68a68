//! Patterns: the expression that a text spells, or the first rule that it breaks and where.
//!
//! ```
//! let text = Text::of(alloc, "^[A-Z]{2}-\\d+$")?;
//! match parse(alloc, &text) {
//!     Ok(regex) => ..,                        // the expression with its anchors
//!     Err(RegexError::Fault(fault)) => ..,    // fault.rule is broken at character fault.at
//!     Err(RegexError::Memory) => ..,          // out of memory: no rule is known to be broken
//! }
//! ```
//!
//! - [`parse`] gives the one expression that the text spells (`SpellsPattern` of `specs/Meaning.antt`), and then no
//!   rule is broken. A fault is the first of the six rules that is broken, at its offset in characters (`FirstFault` of
//!   `specs/Faults.antt`); a syntax error is at the end of the longest viable prefix.
//! - A text writes at most one pattern, spells at most one expression and has at most one first fault ([`one_pattern`],
//!   [`one_regex`], [`one_fault`]).
//!
//! Time and memory grow with the length of the text, whatever its nesting and the numbers in its counts. The grammar is
//! in `specs/Pattern.antt`. The types are those of `helix_expr`, which says what they match.
#![tactic(auto)]

mod assembly;
mod atoms;
mod builder;
mod char_kind;
mod check;
mod class_state;
mod emit;
mod fault;
mod joined;
mod laws;
mod lexer;
mod limits;
mod reader;
mod rules;
mod scan;
mod scanner_state;
mod sets;
mod size;
mod token;

pub use fault::{RegexError, RegexFault, RegexRule};
pub use helix_expr::{Expr, Exprs, Ranges, Regex, contains_match, copy_exprs, matches};
pub use laws::{one_fault, one_pattern, one_regex};
pub use reader::parse;

#[cfg(test)]
mod tests;
