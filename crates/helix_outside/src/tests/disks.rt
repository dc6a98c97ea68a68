//! Disks in memory, of which some calls fail.

ghost use Rattle.std.specs.Prelude.{IsSome};

use crate::tests::{listed, text_of, two_files};
use crate::{Disk, Failed, MemoryDisk};
use std::alloc::Global;
use std::process::Abort;
use std::test::Fail;

/// The two files on a disk of which these calls fail.
fn disk_of(alloc: Global, failing: &[u64]) -> Result<MemoryDisk, Fail> {
    let files = two_files(alloc)?;
    let calls = listed(alloc, failing)?;
    Ok(MemoryDisk::open(files, calls))
}

/// Copies two bytes of `in` to `out`, in five calls.
pub fn copies_two_bytes<D: Disk>(disk: &mut D) -> Result<(), Failed> {
    disk.begin_read("in")?;
    let mut buffer = [0; 2];
    disk.read(&mut buffer)?;
    disk.begin_write("out", false)?;
    disk.write(&buffer)?;
    disk.finish()
}

/// How many calls a disk counted, and how many faults of reading and of writing.
fn counts(disk: &MemoryDisk) -> (u64, u64, u64) {
    (disk.calls(), disk.read_faults(), disk.write_faults())
}

/// Copies two bytes while this call fails: whether all goes well, what `out` is, and the counts.
fn copies_while_failing(
    rt: &impl Abort,
    alloc: Global,
    due: u64,
    (ok, out): (bool, Option<&str>),
    wanted: (u64, u64, u64),
) -> Result<(), Fail> {
    let mut disk = disk_of(alloc, &[9, due])?;
    let copied = copies_two_bytes(&mut disk).is_ok();
    assert_eq!(rt; copied, ok, "{due}");
    assert_eq!(rt; text_of(disk.file("out")), out, "{due}");
    assert_eq!(rt; text_of(disk.file("in")), Some("abcde"), "{due}");
    assert_eq!(rt; counts(&disk), wanted, "{due}");
    Ok(())
}

#[test]
fn each_listed_call_fails(rt: HostRuntime) -> Result<(), Fail> {
    let cases = [
        (0, true, Some("ab"), (5, 0, 0)),
        (1, false, None, (1, 1, 0)),
        (2, false, None, (2, 1, 0)),
        (3, false, None, (3, 0, 1)),
        (4, false, Some(""), (4, 0, 1)),
        (5, false, Some("ab"), (5, 0, 1)),
        (6, true, Some("ab"), (5, 0, 0)),
    ];
    for (due, ok, out, wanted) in cases {
        copies_while_failing(&rt, rt.alloc(), due, (ok, out), wanted)?;
    }
    Ok(())
}

/// No missing file is read, and none that is there is begun.
fn begins_nothing(rt: &impl Abort, disk: &mut MemoryDisk) {
    for name in ["", "e\u{301}", "./in", "IN"] {
        assert!(rt; disk.begin_read(name).is_err(), "{name}");
    }
    for name in ["in", "é"] {
        assert!(rt; disk.begin_write(name, false).is_err(), "{name}");
    }
}

#[test]
fn what_is_told_is_no_fault(rt: HostRuntime) -> Result<(), Fail> {
    // Also in calls that are to fail.
    for due in [0, 1, 2, 3, 4, 5, 6] {
        let mut disk = disk_of(rt.alloc(), &[due])?;
        begins_nothing(&rt, &mut disk);
        assert_eq!(rt; counts(&disk), (6, 0, 0), "{due}");
        assert_eq!(rt; text_of(disk.file("in")), Some("abcde"));
    }
    Ok(())
}

/// The next bytes, through a buffer.
pub fn next_piece<'a, D: Disk>(disk: &mut D, buffer: &'a mut [u8]) -> Result<&'a [u8], Failed>
    requires { IsSome (D.state disk.old).input }
    ensures { IsSome (D.state disk.new).input }
{
    let count = disk.read(buffer)?;
    Ok(&buffer[..count])
}

/// Reads `name` through a buffer of up to eight bytes.
fn pieces(
    rt: &impl Abort,
    alloc: Global,
    (name, room): (&str, usize),
    want: &[&[u8]],
) -> Result<(), Fail> {
    let mut disk = disk_of(alloc, &[])?;
    disk.begin_read(name)?;
    for piece in want {
        let mut buffer = [7; 8];
        let found = next_piece(&mut disk, &mut buffer[..room.min(8)])?;
        assert_eq!(rt; found, *piece, "{name} by {room}");
    }
    Ok(())
}

#[test]
fn a_file_is_read_in_pieces(rt: HostRuntime) -> Result<(), Fail> {
    let alloc = rt.alloc();
    pieces(&rt, alloc, ("in", 8), &[b"abcde", b"", b""])?;
    pieces(&rt, alloc, ("in", 5), &[b"abcde", b"", b""])?;
    pieces(&rt, alloc, ("in", 2), &[b"ab", b"cd", b"e", b"", b""])
}

#[test]
fn a_file_is_read_by_single_bytes_and_by_none(rt: HostRuntime) -> Result<(), Fail> {
    let alloc = rt.alloc();
    pieces(&rt, alloc, ("in", 1), &[b"a", b"b", b"c", b"d", b"e", b""])?;
    pieces(&rt, alloc, ("in", 0), &[b"", b""])?;
    pieces(&rt, alloc, ("é", 3), &[b"", b""])
}

/// Reads `in` after its bytes were replaced, and adds to them before the first read.
fn reads_while_it_writes(disk: &mut MemoryDisk, buffer: &mut [u8]) -> Result<usize, Failed> {
    disk.begin_write("in", true)?;
    disk.write(b"xyz")?;
    disk.begin_read("in")?;
    disk.write(b"12")?;
    disk.read(buffer)
}

#[test]
fn an_input_stays_as_it_was_opened(rt: HostRuntime) -> Result<(), Fail> {
    let mut disk = disk_of(rt.alloc(), &[])?;
    let mut buffer = [0; 4];
    assert_eq!(rt; reads_while_it_writes(&mut disk, &mut buffer)?, 3);
    assert_eq!(rt; buffer, [120, 121, 122, 0]);
    assert_eq!(rt; text_of(disk.file("in")), Some("xyz12"));
    Ok(())
}
