//! The data file of a run, and how writing it ends.

use helix_base::Memory;
use helix_output::Format;
use helix_outside::Failed;

/// Where rows are written, and how many at most.
#[derive(Clone, Copy, Debug)]
pub struct DataFile<'a> {
    pub name: &'a str,
    /// Whether a file that is there is overwritten.
    pub replace: bool,
    pub format: Format,
    /// At least one.
    pub limit: u64,
}

/// The rows that were written.
#[derive(Clone, Copy, Debug, PartialEq, Eq)]
pub struct Written {
    /// How many they are.
    pub rows: u64,
    /// Whether further good rows are above the last one.
    pub cut: bool,
}

/// Why rows weren't written.
#[derive(Clone, Copy, Debug, PartialEq, Eq)]
pub enum WriteFault {
    /// The disk failed, or the file is there and not to be replaced.
    Failed,
    /// An allocation failed. That can only be in JSON.
    Memory,
}

impl From<Failed> for WriteFault {
    ghost use Rattle.std.specs.Prelude.{◌≡◌};
    ghost use Rattle.helix_writing.specs.declared.data_file.WriteFault.TheVariants as faults;

    ghost from_gives = { λ _ fault. fault ≡ faults.Failed };

    fn from(_failed: Failed) -> WriteFault {
        WriteFault::Failed
    }
}

impl From<Memory> for WriteFault {
    ghost use Rattle.std.specs.Prelude.{◌≡◌};
    ghost use Rattle.helix_writing.specs.declared.data_file.WriteFault.TheVariants as faults;

    ghost from_gives = { λ _ fault. fault ≡ faults.Memory };

    fn from(_memory: Memory) -> WriteFault {
        WriteFault::Memory
    }
}
