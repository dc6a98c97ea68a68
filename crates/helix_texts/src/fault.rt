//! Why a text isn't read as a cell.

use helix_base::Memory;

/// Why [`read_cell`](crate::read_cell) gave no cell.
#[derive(Debug, Drop, thiserror::Error)]
pub enum CellFault {
    /// The text spells no value of the kind.
    #[error("the text is no value of the kind")]
    NotOfKind,
    /// An allocation failed.
    #[error("out of memory")]
    Memory,
}

impl From<Memory> for CellFault {
    ghost use Rattle.std.specs.Prelude.{◌≡◌};
    ghost use Rattle.helix_texts.specs.declared.fault.CellFault.TheVariants as faults;

    ghost from_gives = { λ _ fault. fault ≡ faults.Memory };

    fn from(_error: Memory) -> CellFault {
        CellFault::Memory
    }
}
