//! The command line of helix: its words, and what they ask for.
//!
//! ```text
//! match read_words(alloc, &words) {           // --profile-file=p.json --output-path o.csv --max-rows 5
//!     Ok(Order::Generate(job)) => ..,         // job.limit is 5, job.format is Format::Csv
//!     Ok(Order::Workload { number, limit }) => ..,
//!     Err(WordsFault::Word(n)) => ..,         // word n, from 1, names no option
//!     Err(WordsFault::Option(option)) => ..,  // option.word() is "--output-path"
//! ```
//!
//! What is promised of [`read_words`], for every list of words:
//! - Ok holds the order that the words give, and Err the fault that they have (`specs/Orders.antt`), unless memory ran
//!   out. Words have exactly one of them: [`laws`].
//! - The fault is the first from the left (`specs/Faults.antt`), in the groups that the words are divided into
//!   (`specs/Groups.antt`): a word with `=`, a flag, or an option and its value. Without one it is that of the first
//!   check that fails (`specs/Checks.antt`).
//! - Options and their values are those of `specs/Options.antt` and `specs/Values.antt`. A number is in decimal,
//!   without sign and leading zero; a name is any text but the empty one, and names are compared as texts.
//!
//! The words are copied once, and the names that are given once more. No clause says what a call costs.
#![tactic(auto)]

mod checks;
mod fault;
mod faults;
mod given;
mod group;
pub mod laws;
mod options;
mod order;
mod reading;
mod values;
mod word;

pub use fault::WordsFault;
pub use options::OptionName;
pub use order::{Job, Order};
pub use reading::read_words;

#[cfg(test)]
mod tests;
