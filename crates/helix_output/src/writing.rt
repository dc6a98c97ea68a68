//! Writing bytes to the open output.

ghost use Rattle.std.specs.Prelude.{IsSome};
ghost use Rattle.helix_output.specs.Writing.{PutsAll};

use helix_outside::{Disk, Failed};

/// Appends all bytes to the open output, which stays open. Where that fails, a prefix of them is there. It takes no
/// memory.
pub fn put_all<D: Disk>(disk: &mut D, bytes: &[u8]) -> Result<(), Failed>
    requires { IsSome (D.state disk.old).output }
    ensures { PutsAll (D.state disk.old) bytes.now result (D.state disk.new) }
{
    let mut done = 0;
    while done < bytes.len() {
        done += disk.write(&bytes[done..])?;
    }
    Ok(())
}
