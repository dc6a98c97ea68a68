//! The rules of JSON text, and which is broken.

use helix_base::Memory;
use thiserror::Error;

/// The first broken rule, with its offset in bytes.
#[derive(Clone, Copy, Debug, PartialEq, Eq, Error)]
pub enum JsonFault {
    /// J1: there are more than 1,048,576 bytes.
    #[error("J1: the text is longer than 1048576 bytes")]
    TooLong,
    /// J2: the bytes are no UTF-8 from there on.
    #[error("J2: no UTF-8 at byte {at}")]
    NotUtf8 { at: u64 },
    /// J3: no JSON text goes on so.
    #[error("J3: no JSON at byte {at}")]
    Grammar { at: u64 },
    /// J4: there level 65 of lists and objects begins.
    #[error("J4: level 65 begins at byte {at}")]
    TooDeep { at: u64 },
    /// J5: there a key repeats an earlier key of its object.
    #[error("J5: a repeated key at byte {at}")]
    DuplicateKey { at: u64 },
    /// An allocation failed. No rule is known to be broken.
    #[error("out of memory")]
    Memory,
}

impl From<Memory> for JsonFault {
    ghost use Rattle.std.specs.Prelude.{◌≡◌};
    ghost use Rattle.helix_json.specs.declared.fault.JsonFault.TheVariants.{Memory as NoMemory};

    ghost from_gives = { λ _ fault. fault ≡ NoMemory };

    fn from(_memory: Memory) -> JsonFault {
        JsonFault::Memory
    }
}
