//! Deterministic automata over the characters of Unicode.
//!
//! ```text
//! let dfa = Dfa::build(moves, accepting)?;            // state 0 is the start
//! dfa.accepts(word.codes())                           // requires characters
//! let both = dfa.product(alloc, &other)?;             // what both accept
//! let rest = dfa.complement(alloc)?;                  // what it doesn't
//! explore(alloc, &machine, start, &mut scratch)?      // the automaton of a machine with states of any type
//! ```
//!
//! What is proved:
//! - [`Dfa::build`] refuses exactly what isn't well formed (`specs/Shape.antt`): from each state each character leads
//! to
//!   one state, along arcs in order, none of which is without a character.
//! - [`Dfa::accepts`] and [`Dfa::step`] answer by the arcs (`specs/Automaton.antt`), [`Dfa::range_ends`] with the
//!   greatest number of arcs that a state has.
//! - [`Dfa::product`] accepts what both accept, [`Dfa::complement`] what the automaton doesn't. A state of a product
//!   has fewer arcs than the two greatest numbers of arcs that a state of each has together.
//! - [`explore`] accepts from the start what the machine does, and bounds the arcs of a state by the ends of the
//!   machine's steps (`specs/Machine.antt`).
//!
//! What no clause says: a product has up to the product of the numbers of states, of which those are made that can be
//! reached; neighbouring arcs that lead to one state are made one.
#![tactic(auto)]

mod arc;
mod dfa;
mod exploration;
mod lookup;
mod numbered;
mod product;
mod row;
mod shape;

pub use arc::{Arc, Arcs, Flags, Moves};
pub use dfa::{Dfa, DfaFault};
pub use exploration::{Machine, explore};

#[cfg(test)]
mod tests;
