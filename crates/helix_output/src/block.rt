//! A block of bytes on their way to a disk.

ghost use Rattle.std.specs.Prelude.{◌≡◌, [], IsSome, IfOk, OnOk, OnErr};
ghost use Rattle.helix_output.specs.Writing.{AddsBytes, PutsAll};

use crate::writing::put_all;
use helix_base::Memory;
use helix_outside::{Disk, Failed};
use std::alloc::Global;
use std::marker::Model;

/// Bytes that are owed to the open output of a disk. Lines are gathered, and go out many at a time.
#[derive(Drop)]
pub struct Block {
    bytes: Vec<u8>,
}

impl Model for Block {
    ghost use Rattle.std.specs.Prelude.{List, ℕ};

    ghost Value = { List ℕ };

    ghost view = { λ block. block.bytes.items };
}

impl Block {
    /// A block with room for this many bytes, that owes none.
    pub fn open(alloc: Global, room: usize) -> Result<Block, Memory>
        ensures { IfOk result (λ block. block ≡ []) }
    {
        Ok(Block {
            bytes: Vec::with_capacity(alloc, room)?,
        })
    }

    /// Adds bytes. Where they don't fit, what is owed goes out before them, and bytes that are too many for the whole
    /// block go out at once. It takes no memory.
    pub fn add<D: Disk>(&mut self, disk: &mut D, bytes: &[u8]) -> Result<(), Failed>
        requires { IsSome (D.state disk.old).output }
        ensures { AddsBytes (D.state disk.old) self.old bytes.now result self.new (D.state disk.new) }
    {
        add_bytes(&mut self.bytes, disk, bytes)
    }

    /// Writes what is owed.
    pub fn flush<D: Disk>(&mut self, disk: &mut D) -> Result<(), Failed>
        requires { IsSome (D.state disk.old).output }
        ensures puts { PutsAll (D.state disk.old) self.old result (D.state disk.new) }
        ensures ok { OnOk result (self.new ≡ []) }
        ensures err { OnErr result (self.new ≡ self.old) }
    {
        put_all(disk, self.bytes.as_slice())?;
        self.bytes.clear();
        Ok(())
    }
}

/// Adds bytes to a buffer, which goes out where it has no room for them.
fn add_bytes<D: Disk>(owed: &mut Vec<u8>, disk: &mut D, bytes: &[u8]) -> Result<(), Failed>
    requires { IsSome (D.state disk.old).output }
    ensures { AddsBytes (D.state disk.old) owed.old.items bytes.now result owed.new.items (D.state disk.new) }
{
    if bytes.len() <= owed.capacity() - owed.len() {
        owed.extend_from_slice(bytes).unwrap();
        return Ok(());
    }
    put_all(disk, owed.as_slice())?;
    if bytes.len() <= owed.capacity() {
        owed.clear();
        owed.extend_from_slice(bytes).unwrap();
        return Ok(());
    }
    put_all(disk, bytes)?;
    owed.clear();
    Ok(())
}
