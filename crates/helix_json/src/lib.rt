//! JSON text, read exactly: the one value that a text spells, or the first broken rule and its offset.
//!
//! ```
//! match read(alloc, bytes) {
//!     Ok(Json::Object(members)) => use_members(members.as_slice()),
//!     Ok(_) => Err(NoObject),
//!     Err(fault) => report(fault), // "J3: no JSON at byte 11"
//! }
//! ```
//!
//! [`read`] gives the value that the bytes spell (RFC 8259), and then no rule is broken: no object in the value repeats
//! a key, and it is nested at most 64 deep. Or it gives the first of the rules J1 to J5 that the bytes break, with its
//! offset; running out of memory breaks none. Bytes spell at most one value ([`one_value`]). A number stays as it is
//! written; [`number_units`] is its exact value in units of 10^-15, where it has one. A copy equals its value.
//!
//! No clause says how long reading takes: it is linear, but for the comparison of keys, and nesting costs no stack.
//!
//! What a text spells is in `specs/Text.antt` over the tokens of a value in `specs/Tokens.antt`, the rules in
//! `specs/Broken.antt`, what holds of each value that is read in `specs/Values.antt`, and numbers in
//! `specs/Numbers.antt`.
#![tactic(auto)]

mod build;
mod class;
mod depth;
mod digits;
mod fault;
mod keys;
mod laws;
mod lexeme;
mod need;
mod nest;
mod number;
mod progress;
mod reader;
mod scan;
mod scanned;
mod string;
mod token;
mod units;
mod value;

pub use digits::is_number;
pub use fault::JsonFault;
pub use laws::{numbers_of_a_value, one_value, parts_of_a_value, rules_of_a_value};
pub use reader::read;
pub use token::Token;
pub use units::number_units;
pub use value::{Items, Json, Member, Members};

#[cfg(test)]
mod tests;
