//! The options and their words.

ghost use Rattle.std.specs.Prelude.{◌≡◌};
ghost use Rattle.helix_command.specs.Options.{option_named, row_of, takes_value, word_of};

use crate::word::is_word;

/// An option of the command line.
#[derive(Clone, Copy, Debug, PartialEq, Eq)]
pub enum OptionName {
    /// `--profile-file`, the file that holds the profile.
    ProfileFile,
    /// `--output-path`, the data file.
    OutputPath,
    /// `--output-format`, `csv` or `json`.
    OutputFormat,
    /// `--max-rows`, how many rows are written at most.
    MaxRows,
    /// `--resume-file`, the file that holds the token of an earlier run.
    ResumeFile,
    /// `--token-file`, the file that the token of a cut run goes to.
    TokenFile,
    /// `--violate`, the number of the constraint that the rows violate.
    Violate,
    /// `--violate-rule`, the name of the rule that the rows violate.
    ViolateRule,
    /// `--characters`, the alphabet of string fields.
    Characters,
    /// `--replace`: files that are there may be overwritten.
    Replace,
    /// `--violate-all`: each constraint is violated in turn.
    ViolateAll,
    /// `--boundary`: the rows are those of boundary values.
    Boundary,
    /// `--explain`: a core of an empty profile is shown.
    Explain,
    /// `--workload`, the number of a generated profile.
    Workload,
}

/// All options.
const OPTIONS: [OptionName; 14] = [
    OptionName::ProfileFile,
    OptionName::OutputPath,
    OptionName::OutputFormat,
    OptionName::MaxRows,
    OptionName::ResumeFile,
    OptionName::TokenFile,
    OptionName::Violate,
    OptionName::ViolateRule,
    OptionName::Characters,
    OptionName::Replace,
    OptionName::ViolateAll,
    OptionName::Boundary,
    OptionName::Explain,
    OptionName::Workload,
];

impl OptionName {
    /// The word of the option: `--profile-file`.
    #[tactic(auto, unfolding(crate::specs::Options::word_of))]
    pub fn word(self) -> &'static str
        ensures { result.now ≡ word_of self }
    {
        match self {
            OptionName::ProfileFile => "--profile-file",
            OptionName::OutputPath => "--output-path",
            OptionName::OutputFormat => "--output-format",
            OptionName::MaxRows => "--max-rows",
            OptionName::ResumeFile => "--resume-file",
            OptionName::TokenFile => "--token-file",
            OptionName::Violate => "--violate",
            OptionName::ViolateRule => "--violate-rule",
            OptionName::Characters => "--characters",
            OptionName::Replace => "--replace",
            OptionName::ViolateAll => "--violate-all",
            OptionName::Boundary => "--boundary",
            OptionName::Explain => "--explain",
            OptionName::Workload => "--workload",
        }
    }

    /// The row of the option in the table of options, from 0.
    pub(crate) fn row(self) -> u8
        ensures { result ≡ row_of self }
    {
        match self {
            OptionName::ProfileFile => 0,
            OptionName::OutputPath => 1,
            OptionName::OutputFormat => 2,
            OptionName::MaxRows => 3,
            OptionName::ResumeFile => 4,
            OptionName::TokenFile => 5,
            OptionName::Violate => 6,
            OptionName::ViolateRule => 7,
            OptionName::Characters => 8,
            OptionName::Replace => 9,
            OptionName::ViolateAll => 10,
            OptionName::Boundary => 11,
            OptionName::Explain => 12,
            OptionName::Workload => 13,
        }
    }

    /// Whether the option takes a value. A flag takes none.
    pub(crate) fn takes_value(self) -> bool
        ensures { result ≡ takes_value self }
    {
        match self {
            OptionName::Replace => false,
            OptionName::ViolateAll => false,
            OptionName::Boundary => false,
            OptionName::Explain => false,
            _ => true,
        }
    }
}

/// The option with a word.
#[tactic(auto, unfolding(crate::specs::Options::option_named))]
pub fn option_named(word: &[u32]) -> Option<OptionName>
    ensures { result ≡ option_named word.now }
{
    OPTIONS
        .iter()
        .copied()
        .find(|option| is_word(word, option.word()))
}
