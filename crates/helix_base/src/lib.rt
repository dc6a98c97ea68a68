//! What every crate of helix is built on: texts, lists, alphabets, tables of ranges and of weights, counts of steps,
//! and the error of memory that ran out.
//!
//! ```text
//! let mut word = Text::of(alloc, "caf")?;
//! word.push('é' as u32)?;                                   // requires a scalar value
//! word.codes().iter().all(|c| Alphabet::Latin.has(*c))      // true
//! Alphabet::Latin.next_at_or_after('~' as u32 + 1)          // Some(0xA0)
//! let copy = List::copy(&numbers, alloc)?;                  // of any list whose items are TryCopy
//! ```
//!
//! What is proved:
//! - A [`Text`] is the list of its code points, each a Unicode scalar value; [`Text::of`] reads UTF-8 and
//!   [`Text::written`] writes it. A [`List`] is the list of its items. A `push` appends, or fails and changes nothing;
//!   a `copy` is equal.
//! - [`Alphabet::has`], [`RangeTable::has`] and [`in_ranges`] answer by the ranges (`specs/Alphabet.antt`,
//!   `specs/Ranges.antt`), and `next_at_or_after` with the least code that isn't below a bound. [`RangeTable::new`]
//!   answers None exactly where the ranges aren't in order.
//! - [`WeightTable::sum`] is the sum of products (`specs/Weights.antt`).
//! - [`Steps::tick`] counts a step, up to 2^64 - 1, and notes it in the [`Ledger`] once (`specs/Steps.antt`).
//!
//! Only memory that runs out makes a call fail, with [`Memory`]. No clause says when that is.
//! `specs/Syntax.antt` and `specs/Digits.antt` have words for the grammars of the crates above.
#![tactic(auto)]

mod alphabet;
mod copy;
mod digits;
mod list;
mod memory;
mod ranges;
mod steps;
mod text;
mod weights;

pub use alphabet::Alphabet;
pub use copy::TryCopy;
pub use digits::is_digit;
pub use list::{Bytes, List, Numbers32};
pub use memory::Memory;
pub use ranges::{RangeTable, in_ranges};
pub use steps::{Ledger, Quiet, Steps, Unit};
pub use text::Text;
pub use weights::WeightTable;

#[cfg(test)]
mod tests;
