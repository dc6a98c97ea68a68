//! Generating the rows of a profile into a data file.
//!
//! ```text
//! let ending = generate(alloc, &job, &mut disk);      // Ending::Cut { rows: 2, token: Some(..) }
//! ```
//!
//! What is proved of [`generate`], over any disk (`specs/Generating.antt`): where the disk tells its files and nothing
//! fails, the job ends as its script says (`specs/Script.antt`): the profile and the token are accepted
//! (`specs/Starts.antt`) and the data file holds the text of exactly the good rows after the token, up to the limit,
//! or a rule, a file or the token is at fault and nothing is begun. Where the disk fails, its count says so, and each
//! output is as it was or holds a prefix of its text. Nothing that is there is overwritten unless the job says so.
//!
//! No clause says what it costs. Memory is taken before the data file is begun, and then for lines of JSON and for the
//! token alone.
#![tactic(auto)]

mod cells;
mod cut;
mod data;
mod generating;
mod preparing;
mod resume;

pub use generating::generate;

#[cfg(test)]
mod tests;
