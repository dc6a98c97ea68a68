//! The rules of the older form, and which is broken.

use helix_base::{Memory, Text};
use thiserror::Error;

/// A rule of the older form: `specs/Broken.antt` says where each is broken.
#[derive(Clone, Copy, Debug, PartialEq, Eq)]
pub enum LegacyRule {
    /// There are no `constraints` beside `rules`.
    L1,
    /// The form of `rules` and of each rule.
    L2,
    /// The names of rules.
    L3,
    /// The form of each visited object with `is`.
    L4,
}

/// Why there is no today's form.
#[derive(Debug, Drop, Error)]
pub enum LegacyFault {
    /// The first broken rule, and the pointer of the first place where it is broken.
    #[error("a broken rule of the older form")]
    Refused(LegacyRule, Text),
    /// An allocation failed. No rule is known to be broken.
    #[error("out of memory")]
    Memory,
}

impl From<Memory> for LegacyFault {
    ghost use Rattle.std.specs.Prelude.{◌≡◌};
    ghost use Rattle.helix_legacy.specs.declared.fault.LegacyFault.TheVariants.{Memory as NoMemory};

    ghost from_gives = { λ _ fault. fault ≡ NoMemory };

    fn from(_memory: Memory) -> LegacyFault {
        LegacyFault::Memory
    }
}
