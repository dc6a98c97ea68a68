//! The rules of a pattern, and which is broken.

use thiserror::Error;

/// A rule of patterns. They are tested in this order, each on the whole pattern.
#[derive(Clone, Copy, Debug, PartialEq, Eq)]
pub enum RegexRule {
    /// Each character is one of `Unicode`.
    OutsideAlphabet,
    /// The pattern is in the grammar.
    Syntax,
    /// `^` is first and `$` last, and there is no `|` outside of groups beside them.
    Anchor,
    /// No range of a class is reversed.
    BadRange,
    /// A count is at most 1,000, and its second number is not below the first.
    BadCount,
    /// There are at most 5,000 positions and 64 levels of groups.
    TooLarge,
}

/// The first broken rule, and its offset in characters.
#[derive(Clone, Copy, Debug, PartialEq, Eq)]
pub struct RegexFault {
    pub rule: RegexRule,
    pub at: u64,
}

/// Why a pattern gives no expression.
#[derive(Clone, Copy, Debug, PartialEq, Eq, Error)]
pub enum RegexError {
    /// A rule is broken.
    #[error("{} at character {}", .0.rule.name(), .0.at)]
    Fault(RegexFault),
    /// An allocation failed. No rule is known to be broken.
    #[error("out of memory")]
    Memory,
}

impl RegexRule {
    fn name(self) -> &'static str {
        match self {
            RegexRule::OutsideAlphabet => "OutsideAlphabet",
            RegexRule::Syntax => "Syntax",
            RegexRule::Anchor => "Anchor",
            RegexRule::BadRange => "BadRange",
            RegexRule::BadCount => "BadCount",
            RegexRule::TooLarge => "TooLarge",
        }
    }
}
