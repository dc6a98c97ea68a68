//! Why there is no draft of a profile.

use crate::refusal::Refusal;
use helix_base::Memory;
use thiserror::Error;

/// Why [`read_profile`](crate::read_profile) answers no draft.
#[derive(Debug, Drop, Error)]
pub enum SchemaFault {
    /// A rule is broken: this is the first one.
    #[error("a broken rule")]
    Refused(Refusal),
    /// An allocation failed. No rule is known to be broken.
    #[error("out of memory")]
    Memory,
}

impl From<Memory> for SchemaFault {
    ghost use Rattle.std.specs.Prelude.{◌≡◌};
    ghost use Rattle.helix_schema.specs.declared.fault.SchemaFault.TheVariants.{Memory as NoMemory};

    ghost from_gives = { λ _ fault. fault ≡ NoMemory };

    fn from(_memory: Memory) -> SchemaFault {
        SchemaFault::Memory
    }
}
