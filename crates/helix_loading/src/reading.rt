//! Reading a whole file.

ghost use Rattle.std.specs.Prelude.{◌≡◌, IfOk, MatchResult};
ghost use Rattle.helix_loading.specs.Files.{OnlyReads, AreRead, StopsReading};

use helix_outside::{Disk, Failed};
use std::alloc::{AllocError, Global};

/// At most this many bytes of a file are read: one more than a profile may have.
pub const READ_LIMIT: usize = 1_048_577;

/// Why a file was not read.
#[derive(Clone, Copy, Debug, PartialEq, Eq, Hash)]
pub enum ReadError {
    /// The disk failed, or has no such file.
    Fault,
    /// An allocation failed.
    Memory,
}

impl From<Failed> for ReadError {
    ghost use Rattle.std.specs.Prelude.{◌≡◌};
    ghost use Rattle.helix_loading.specs.declared.reading.ReadError.TheVariants.{Fault};

    ghost from_gives = { λ _ error. error ≡ Fault };

    fn from(_failed: Failed) -> ReadError {
        ReadError::Fault
    }
}

impl From<AllocError> for ReadError {
    ghost use Rattle.std.specs.Prelude.{◌≡◌};
    ghost use Rattle.helix_loading.specs.declared.reading.ReadError.TheVariants.{Memory};

    ghost from_gives = { λ _ error. error ≡ Memory };

    fn from(_error: AllocError) -> ReadError {
        ReadError::Memory
    }
}

/// The bytes of a file, to its end or to [`READ_LIMIT`] bytes. The input stays open at Ok.
pub fn read_file<D: Disk>(alloc: Global, disk: &mut D, name: &str) -> Result<Vec<u8>, ReadError>
    ensures only_reads { OnlyReads (D.state disk.old) (D.state disk.new) }
    ensures ok { IfOk result (λ bytes. AreRead (D.state disk.old) name.now bytes.items) }
    ensures counts { MatchResult result
        (λ _. (D.state disk.new).read_faults ≡ (D.state disk.old).read_faults)
        (λ error. StopsReading (D.state disk.old) name.now error (D.state disk.new)) }
{
    let mut bytes = Vec::new(alloc);
    let mut buffer = [0; 16_384];
    disk.begin_read(name)?;
    while bytes.len() < READ_LIMIT {
        let room = (READ_LIMIT - bytes.len()).min(16_384);
        let count = disk.read(&mut buffer[..room])?;
        if count == 0 {
            return Ok(bytes);
        }
        bytes.extend_from_slice(&buffer[..count])?;
    }
    Ok(bytes)
}
