//! A run of helix: it reads the words of a command line and a profile file, and writes the rows that satisfy the
//! profile.
//!
//! ```text
//! let words = [.. "--profile-file", "p.json", "--output-path", "o.csv" ..];
//! let status = run(alloc, &words, &mut disk, &mut console);      // over any Disk and Console
//! // Status::Done: o.csv holds exactly the good rows, and the console "done: 3 rows"
//! ```
//!
//! What is promised of [`run`], each a clause:
//! - where neither disk nor console fails, status, files and console text are those of the script
//!   (`specs/Script.antt`): the answer list of the profile (`specs/Rows.antt`) as CSV (`specs/Output.antt`);
//! - each status has its cause, and comes where that cause holds (`specs/Causes.antt`);
//! - whatever fails, the files are as before, or the output holds a prefix of its text, and nothing that was there is
//!   overwritten (`specs/Left.antt`).
//!
//! [`run_steady`] is a run over a disk and a console that never fail. Only memory that runs out is in no cause.
//!
//! So far a profile is one boolean field without constraints (`specs/Profile.antt`), and the words are the two names
//! that every run needs (`specs/Words.antt`).
#![tactic(auto)]

mod csv;
mod outcome;
mod output;
mod pattern;
mod profile;
mod reading;
mod rows;
mod status;
mod steady;
mod telling;
mod top;
mod words;

pub use status::Status;
pub use steady::run_steady;
pub use top::run;

#[cfg(test)]
mod tests;
