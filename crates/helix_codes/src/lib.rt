//! The automata of the codes of the securities business: ISIN, SEDOL and CUSIP.
//!
//! ```text
//! let dfa = code_dfa(alloc, Code::Isin)?;
//! dfa.accepts(word.codes())                       // as valid(Code::Isin, word.codes()) answers
//! dfa.product(alloc, &pattern)?                   // the ISINs that match a pattern
//! ```
//!
//! What is proved: over characters, [`code_dfa`] accepts exactly the words of the code with the right check digit, as
//! `specs/Codes.antt` of helix_values defines them, and a state has at most 60 arcs.
//!
//! What no clause says: an automaton has a state for each number of characters and last digits of the sums that can be
//! reached, 1,117 for an ISIN, 72 for a SEDOL and 92 for a CUSIP.
//!
//! A word is read from its first character, while the digits of an ISIN count from its last one. So the sum of what has
//! been read is kept twice, for an even and for an odd number of digits that follow (`specs/Inner/Completed.antt`). The
//! exploration of helix_automata numbers the states.
#![tactic(auto)]

mod automaton;
mod cusip;
mod gap;
mod isin;
mod next;
mod prefix;
mod sedol;

pub use automaton::code_dfa;

#[cfg(test)]
mod tests;
