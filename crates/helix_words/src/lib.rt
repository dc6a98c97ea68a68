//! The least word of a set: what an automaton accepts, of allowed length.
//!
//! ```text
//! let words = Words::open(alloc, dfa, 1, 12)?;              // words of 1 to 12 characters
//! let found = words.at_or_after(Mark::Start, &mut slot, &mut steps);
//! let mut trail = Trail::open(alloc, words.longest_word())?;
//! let mut more = words.first(&mut trail, &mut steps);       // and then the next one, and the next
//! while more { more = words.next(&mut trail, &mut steps); }
//! ```
//!
//! What is proved:
//! - [`Words::at_or_after`] puts the least word that a [`Mark`](helix_values::Mark) admits into a slot, shorter words
//!   first. It answers false exactly where there is none, and leaves the slot as it was.
//! - [`Words::first`] and [`Words::next`] do the same in a [`Trail`], which keeps a word with the states along it: the
//!   next word begins where it differs, not at its first character.
//! - Each question ticks `Move` for each arc whose state it looks up, and nothing else: at most
//!   `1001 + 2002 * (1 + r)` times, where no state has more than r arcs (`specs/Moves.antt`).
//! - A question takes no memory.
//!
//! Which words are in a set is in `specs/Words.antt`, what the least cell is in `specs/Questions.antt`.
//!
//! What no clause says: opening costs as many steps as states and arcs for each length, up to the first length from
//! which on all are alike, and 8 bytes a state for each 64 lengths. A question looks at the arcs of each state on its
//! way, up to the first that leads on.
#![tactic(auto)]

mod blocks;
mod column;
mod fill;
mod fork;
mod lengths;
mod reach;
mod rows;
mod slots;
mod step;
mod table;
mod trail;
mod trails;
mod walk;
mod words;

pub use trail::Trail;
pub use words::Words;

#[cfg(test)]
mod tests;
