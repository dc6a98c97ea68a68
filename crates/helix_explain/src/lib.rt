//! Why no row satisfies a profile: a core of its constraints.
//!
//! ```text
//! let numbers = core(alloc, profile_constraints, &mut ask)?;      // ask: any Emptiness
//! // numbers.as_slice() is [1, 3]: constraints 1 and 3 together let no row through, and neither does alone
//! ```
//!
//! A set of constraint numbers empties a profile where no row satisfies those constraints. What is promised of
//! [`core`], over any [`Emptiness`] (`specs/Sets.antt`):
//! - Its answer, written from the greatest number down, is the first in lexicographic order of all sets that empty the
//!   profile.
//! - It asks at most as many questions as there are constraints, whether memory runs out or not.
//! - A set that leaves out one number of a core empties nothing, and there is one core: [`laws`].
//!
//! Each question is one list of numbers; no clause says what a question costs. A core need not be the smallest set.
#![tactic(auto)]

mod emptiness;
mod finding;
pub mod laws;

pub use emptiness::Emptiness;
pub use finding::core;

#[cfg(test)]
mod tests;
