//! Bytes on their way to a disk that takes one at a time.

ghost use Rattle.helix_outside.specs.DiskInMemory.{state_of};

use crate::{Block, put_all};
use helix_outside::{Calls, Disk, Failed, Files, MemoryDisk};
use std::alloc::Global;
use std::test::Fail;

/// A disk in memory that takes one byte at a time.
#[derive(Drop)]
struct OneByte {
    inner: MemoryDisk,
}

impl Disk for OneByte {
    ghost state = { λ disk. state_of disk.inner };

    fn begin_read(&mut self, name: &str) -> Result<(), Failed> {
        self.inner.begin_read(name)
    }

    fn read(&mut self, buffer: &mut [u8]) -> Result<usize, Failed> {
        self.inner.read(buffer)
    }

    fn begin_write(&mut self, name: &str, replace: bool) -> Result<(), Failed> {
        self.inner.begin_write(name, replace)
    }

    fn write(&mut self, bytes: &[u8]) -> Result<usize, Failed> {
        let room = bytes.len().min(1);
        self.inner.write(&bytes[..room])
    }

    fn finish(&mut self) -> Result<(), Failed> {
        self.inner.finish()
    }
}

/// A disk without files, whose call of this number fails.
fn disk(alloc: Global, failing: u64) -> Result<MemoryDisk, Fail> {
    let mut calls = Calls::new(alloc);
    calls.push(failing)?;
    Ok(MemoryDisk::open(Files::new(alloc), calls))
}

fn held(disk: &MemoryDisk) -> Option<&str> {
    disk.file("o").and_then(|bytes| str::from_utf8(bytes).ok())
}

/// Writes three bytes to a file, after a call that opens it.
fn put_three<D: Disk>(disk: &mut D) -> Result<(), Failed> {
    disk.begin_write("o", false)?;
    put_all(disk, b"abc")
}

#[test]
fn all_bytes_are_put(rt: HostRuntime) -> Result<(), Fail> {
    // the call that fails, whether all went well, the file, and the number of calls
    let cases = [
        (0, true, Some("abc"), 4),
        (1, false, None, 1),
        (2, false, Some(""), 2),
        (3, false, Some("a"), 3),
        (4, false, Some("ab"), 4),
    ];
    for (due, ok, file, calls) in cases {
        let mut slow = OneByte {
            inner: disk(rt.alloc(), due)?,
        };
        assert_eq!(rt; put_three(&mut slow).is_ok(), ok, "{due}");
        assert_eq!(rt; held(&slow.inner), file, "{due}");
        assert_eq!(rt; slow.inner.calls(), calls, "{due}");
    }
    Ok(())
}

/// Adds some lines through a block of four bytes.
fn add_lines<D: Disk>(block: &mut Block, disk: &mut D) -> Result<(), Failed> {
    disk.begin_write("o", false)?;
    block.add(disk, b"ab")?;
    block.add(disk, b"cd")?;
    block.add(disk, b"e")?;
    block.add(disk, b"fghij")?;
    block.add(disk, b"kl")?;
    block.flush(disk)
}

#[test]
fn blocks_go_out_whole(rt: HostRuntime) -> Result<(), Fail> {
    let cases = [
        (0, true, Some("abcdefghijkl"), 5),
        (2, false, Some(""), 2),
        (3, false, Some("abcd"), 3),
        (4, false, Some("abcde"), 4),
        (5, false, Some("abcdefghij"), 5),
    ];
    for (due, ok, file, calls) in cases {
        let mut disk = disk(rt.alloc(), due)?;
        let mut block = Block::open(rt.alloc(), 4)?;
        assert_eq!(rt; add_lines(&mut block, &mut disk).is_ok(), ok, "{due}");
        assert_eq!(rt; held(&disk), file, "{due}");
        assert_eq!(rt; disk.calls(), calls, "{due}");
    }
    Ok(())
}
