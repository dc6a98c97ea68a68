//! What the words ask for.

use helix_base::{Alphabet, Text};
use helix_output::Format;

/// What the words of a command line ask for.
#[derive(Debug, Drop)]
pub enum Order {
    /// Rows of a profile.
    Generate(Job),
    /// At most `limit` rows of a generated profile, which are counted and digested, and not written.
    Workload { number: u64, limit: u64 },
}

/// Which rows to write, and where.
#[derive(Debug, Drop)]
pub struct Job {
    /// The file that holds the profile.
    pub profile: Text,
    /// The data file.
    pub output: Text,
    pub format: Format,
    /// How many rows are written at most, in each data file.
    pub limit: u64,
    /// The file with the token of an earlier run, after whose last row this one goes on.
    pub resume: Option<Text>,
    /// The file that the token of a cut run goes to; without it, the console.
    pub token: Option<Text>,
    /// The number of the constraint to violate, from 1.
    pub violate: Option<u64>,
    /// The name of the rule to violate.
    pub violate_rule: Option<Text>,
    /// The alphabet of string fields.
    pub alphabet: Alphabet,
    /// Whether files that are there are overwritten.
    pub replace: bool,
    /// Whether each constraint is violated in turn, into a data file of its own.
    pub violate_all: bool,
    /// Whether only boundary values are taken.
    pub boundary: bool,
    /// Whether a core is shown where no row satisfies the profile.
    pub explain: bool,
}
