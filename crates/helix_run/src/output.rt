//! Writing a whole file.

ghost use Rattle.std.specs.Prelude.{IsSome};
ghost use Rattle.helix_run.specs.Inner.Writing.{PutsAll, WritesFile};

use helix_outside::{Disk, Failed};

/// Appends all bytes to the open output, which stays open. Where that fails, a prefix of them is there.
pub fn put_all<D: Disk>(disk: &mut D, bytes: &[u8]) -> Result<(), Failed>
    requires { IsSome (D.state disk.old).output }
    ensures { PutsAll (D.state disk.old) bytes.now result (D.state disk.new) }
{
    let mut done = 0;
    while done < bytes.len() {
        done += disk.write(&bytes[done..])?;
    }
    Ok(())
}

/// Makes a new file that holds the text. Where that fails, a prefix of the text may be in it.
pub fn write_file<D: Disk>(disk: &mut D, name: &str, text: &[u8]) -> Result<(), Failed>
    ensures { WritesFile (D.state disk.old) name.now text.now result (D.state disk.new) }
{
    disk.begin_write(name, false)?;
    put_all(disk, text)?;
    disk.finish()
}
