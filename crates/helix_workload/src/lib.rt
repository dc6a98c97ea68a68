//! Generated profiles, as a workload for measuring.
//!
//! ```text
//! workload_text(alloc, 1)?.as_slice();    // {"fields":[{"name":"id",.. "matchingRegex":"[A-H]{3}[0-9]{2}" ..
//! ```
//!
//! [`workload_text`] gives the text of a profile for each number: six fields, with a text by a pattern, two related
//! dates, a set of 2,000 numbers, an amount on a grid and a nullable flag. Four numbers in it are drawn by a generator
//! that begins with the number (`specs/Workload.antt`), so that a number always gives the same text.
#![tactic(auto)]

mod draws;
mod text;

pub use text::workload_text;

#[cfg(test)]
mod tests;
