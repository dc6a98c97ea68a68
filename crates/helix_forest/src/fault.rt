//! Why relations aren't known to be a forest.

use helix_base::Memory;
use thiserror::Error;

/// Why [`check_forest`](crate::check_forest) didn't find a forest.
#[derive(Clone, Copy, Debug, PartialEq, Eq, Error)]
pub enum ForestFault {
    /// The relation of this index, counted from 0, is the first that closes a cycle.
    #[error("relation {index} closes a cycle")]
    Cycle { index: u64 },
    /// An allocation failed.
    #[error("out of memory")]
    Memory,
}

impl From<Memory> for ForestFault {
    ghost use Rattle.std.specs.Prelude.{◌≡◌};
    ghost use Rattle.helix_forest.specs.declared.fault.ForestFault.TheVariants.{Memory as NoMemory};

    ghost from_gives = { λ _ fault. fault ≡ NoMemory };

    fn from(_memory: Memory) -> ForestFault {
        ForestFault::Memory
    }
}
