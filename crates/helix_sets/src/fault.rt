//! Why bytes are no set.

use helix_base::Memory;

/// Why [`members`](crate::members) gave no members. Records are counted from 1.
#[derive(Clone, Copy, Debug, PartialEq, Eq, thiserror::Error)]
pub enum SetFault {
    /// There are more than 1,048,576 bytes.
    #[error("a set file has at most 1048576 bytes")]
    TooLong,
    /// The first field of the record isn't UTF-8.
    #[error("record {at} isn't UTF-8")]
    NotUtf8 { at: u32 },
    /// The first field of the record spells no value of the kind.
    #[error("record {at} is no value of the kind")]
    NotOfKind { at: u32 },
    /// There are more than 10,000 records.
    #[error("a set file has at most 10000 records")]
    TooMany,
    /// There is no record.
    #[error("a set file has a record")]
    Empty,
    /// An allocation failed.
    #[error("out of memory")]
    Memory,
}

impl From<Memory> for SetFault {
    ghost use Rattle.std.specs.Prelude.{◌≡◌};
    ghost use Rattle.helix_sets.specs.declared.fault.SetFault.TheVariants as faults;

    ghost from_gives = { λ _ fault. fault ≡ faults.Memory };

    fn from(_error: Memory) -> SetFault {
        SetFault::Memory
    }
}
