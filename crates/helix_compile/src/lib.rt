//! The automaton of a pattern.
//!
//! ```text
//! let dfa = dfa_of(alloc, &regex, false)?;      // of the words that the pattern matches
//! dfa.accepts(word.codes())                     // whether it matches the word
//! dfa_of(alloc, &regex, true)?                  // of the words that contain a match
//! ```
//!
//! What is proved: over characters, [`dfa_of`] accepts exactly the words that the pattern matches or contains
//! (`specs/Answers.antt`, over the matching of the crate below), and with n ranges in the pattern
//! (`specs/ExprRanges.antt`) a state has at most 2n + 1 arcs. How many states it has, no clause says: see its page.
//!
//! The expression becomes a nondeterministic automaton by Thompson's construction (`thompson`, `alternatives`,
//! `specs/Inner/Nfa.antt`), and that a deterministic one by the subset construction (`determinize`, `step`, `closure`,
//! `specs/Inner/Subsets.antt`), which the exploration of helix_automata carries out.
#![tactic(auto)]

mod alternatives;
mod closure;
mod compiled;
mod determinize;
mod empty_words;
mod nfa;
mod seen;
mod state_at;
mod step;
mod thompson;
mod whole;

pub use compiled::dfa_of;

#[cfg(test)]
mod tests;
