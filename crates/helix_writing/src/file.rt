//! Writing a whole file.

ghost use Rattle.helix_writing.specs.Files.{WritesFile};

use helix_output::put_all;
use helix_outside::{Disk, Failed};

/// Makes a file that holds the text. Where that fails, a prefix of the text may be in it. It takes no memory.
pub fn write_file<D: Disk>(
    disk: &mut D,
    name: &str,
    text: &[u8],
    replace: bool,
) -> Result<(), Failed>
    ensures { WritesFile (D.state disk.old) name.now text.now replace result (D.state disk.new) }
{
    disk.begin_write(name, replace)?;
    put_all(disk, text)?;
    disk.finish()
}
