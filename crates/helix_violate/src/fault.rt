//! Why no constraint was violated.

use helix_base::Memory;
use thiserror::Error;

/// Why [`violate`](crate::violate) left the profile as it was.
#[derive(Clone, Copy, Debug, PartialEq, Eq, Error)]
pub enum ViolateFault {
    /// There are `count` constraints, and none has the number.
    #[error("no such constraint among {count}")]
    NoSuchConstraint { count: u32 },
    /// An allocation failed.
    #[error("out of memory")]
    Memory,
}

impl From<Memory> for ViolateFault {
    ghost use Rattle.std.specs.Prelude.{◌≡◌};
    ghost use Rattle.helix_violate.specs.declared.fault.ViolateFault.TheVariants.{Memory as NoMemory};

    ghost from_gives = { λ _ fault. fault ≡ NoMemory };

    fn from(_memory: Memory) -> ViolateFault {
        ViolateFault::Memory
    }
}
