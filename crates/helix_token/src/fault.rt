//! Why bytes are no token.

use helix_base::Memory;

/// Why [`read_token`](crate::read_token) gave no row: the first of the three faults of a token, or memory.
#[derive(Debug, Drop, thiserror::Error)]
pub enum TokenFault {
    /// The bytes are the text of no token, or more than 1,048,576.
    #[error("the bytes are no token")]
    Form,
    /// The token is that of another profile, mode or set file: its identity, and the one that was wanted.
    #[error("the token is that of another profile")]
    OtherProfile { found: [u8; 32], wanted: [u8; 32] },
    /// The least index, from 0, with a cell but no field, a field but no cell, or a string that no cell of the field
    /// has.
    #[error("cell {index} of the token is no cell of its field")]
    Cell { index: u64 },
    /// An allocation failed.
    #[error("out of memory")]
    Memory,
}

impl From<Memory> for TokenFault {
    ghost use Rattle.std.specs.Prelude.{◌≡◌};
    ghost use Rattle.helix_token.specs.declared.fault.TokenFault.TheVariants as faults;

    ghost from_gives = { λ _ fault. fault ≡ faults.Memory };

    fn from(_error: Memory) -> TokenFault {
        TokenFault::Memory
    }
}
