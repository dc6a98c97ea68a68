//! Why words give no order.

use crate::options::OptionName;
use helix_base::Memory;
use std::error::Error;
use std::fmt;

/// Why [`read_words`](crate::read_words) gave no order.
#[derive(Clone, Copy, Debug, PartialEq, Eq)]
pub enum WordsFault {
    /// The word with this number, from 1, names no option.
    Word(u64),
    /// The option is repeated, has a wrong value, is missing, or does not go with another one.
    Option(OptionName),
    /// An allocation failed.
    Memory,
}

impl fmt::Display for WordsFault {
    fn fmt<W: fmt::Write>(&self, f: &mut fmt::Formatter<W>) -> fmt::Result {
        match self {
            WordsFault::Word(number) => write!(f, "word {number}"),
            WordsFault::Option(option) => write!(f, "option {}", option.word()),
            WordsFault::Memory => write!(f, "out of memory"),
        }
    }
}

impl Error for WordsFault {}

impl From<Memory> for WordsFault {
    ghost use Rattle.std.specs.Prelude.{◌≡◌};
    ghost use Rattle.helix_command.specs.declared.fault.WordsFault.TheVariants as faults;

    ghost from_gives = { λ _ fault. fault ≡ faults.Memory };

    fn from(_error: Memory) -> WordsFault {
        WordsFault::Memory
    }
}
