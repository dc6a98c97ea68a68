//! Runs over a disk and a console that fail, or that work in small pieces.

ghost use Rattle.helix_outside.specs.DiskInMemory.{state_of};

use super::ending::{Left, expect, given, leaves, run_on, status_of, stored};
use super::{flag, words};
use crate::{Status, run_steady};
use helix_outside::{Calls, Disk, Failed, MemoryConsole, MemoryDisk, SteadyConsole, SteadyDisk};
use std::alloc::Global;
use std::process::Abort;
use std::test::Fail;

/// The rows of the flag.
fn whole() -> &'static str {
    "\"flag\"\nfalse\ntrue\n\n"
}

#[test]
fn a_missing_profile_is_a_read_fault(rt: HostRuntime) -> Result<(), Fail> {
    let left = (Status::ReadFault, "fault: read\n", None);
    leaves(
        &rt,
        rt.alloc(),
        (&words(), &[]),
        (0, 0),
        left,
        "a missing profile",
    )
}

#[test]
fn an_output_that_is_there_is_a_write_fault(rt: HostRuntime) -> Result<(), Fail> {
    let files = [("p.json", flag()), ("o.csv", "old")];
    let left = (Status::WriteFault, "fault: write\n", Some("old"));
    leaves(
        &rt,
        rt.alloc(),
        (&words(), &files),
        (0, 0),
        left,
        "an output",
    )
}

/// A run of which this call of the disk fails.
fn fails_at(rt: &impl Abort, alloc: Global, call: u64, left: Left<'_>) -> Result<(), Fail> {
    let ending = run_on(alloc, &words(), &[("p.json", flag())], (call, 0))?;
    expect(rt, &ending, left, "a failing call");
    assert_eq!(rt; ending.disk.file("p.json"), Some(flag().as_bytes()));
    let faults = (ending.disk.read_faults(), ending.disk.write_faults());
    assert_eq!(rt;
        faults,
        (u64::from(call < 4), u64::from(4 <= call && call < 7)),
        "call {call}"
    );
    Ok(())
}

#[test]
fn each_call_of_the_disk_fails_in_turn(rt: HostRuntime) -> Result<(), Fail> {
    let cases = [
        (1, Status::ReadFault, "fault: read\n", None),
        (2, Status::ReadFault, "fault: read\n", None),
        (3, Status::ReadFault, "fault: read\n", None),
        (4, Status::WriteFault, "fault: write\n", None),
        (5, Status::WriteFault, "fault: write\n", Some("")),
        (6, Status::WriteFault, "fault: write\n", Some(whole())),
        (7, Status::Done, "done: 3 rows\n", Some(whole())),
    ];
    for (call, status, text, output) in cases {
        fails_at(&rt, rt.alloc(), call, (status, text, output))?;
    }
    Ok(())
}

#[test]
fn a_console_that_fails_ends_a_finished_run(rt: HostRuntime) -> Result<(), Fail> {
    let left = (Status::WriteFault, "", Some(whole()));
    leaves(
        &rt,
        rt.alloc(),
        (&words(), &[("p.json", flag())]),
        (0, 1),
        left,
        "a run",
    )
}

#[test]
fn a_console_that_fails_changes_no_other_end(rt: HostRuntime) -> Result<(), Fail> {
    leaves(
        &rt,
        rt.alloc(),
        (&[], &[]),
        (0, 1),
        (Status::Usage, "", None),
        "no words",
    )
}

/// A disk in memory that gives and takes one byte at a time.
#[derive(Drop)]
struct Pieces {
    disk: MemoryDisk,
}

impl Disk for Pieces {
    ghost state = { λ pieces. state_of pieces.disk };

    fn begin_read(&mut self, name: &str) -> Result<(), Failed> {
        self.disk.begin_read(name)
    }

    fn read(&mut self, buffer: &mut [u8]) -> Result<usize, Failed> {
        let room = buffer.len().min(1);
        self.disk.read(&mut buffer[..room])
    }

    fn begin_write(&mut self, name: &str, replace: bool) -> Result<(), Failed> {
        self.disk.begin_write(name, replace)
    }

    fn write(&mut self, bytes: &[u8]) -> Result<usize, Failed> {
        let room = bytes.len().min(1);
        self.disk.write(&bytes[..room])
    }

    fn finish(&mut self) -> Result<(), Failed> {
        self.disk.finish()
    }
}

#[test]
fn reads_and_writes_in_pieces(rt: HostRuntime) -> Result<(), Fail> {
    let given = given(rt.alloc(), &words())?;
    let files = stored(rt.alloc(), &[("p.json", flag())])?;
    let mut disk = Pieces {
        disk: MemoryDisk::open(files, Calls::new(rt.alloc())),
    };
    let mut console = MemoryConsole::open(Calls::new(rt.alloc()));
    let status = status_of(rt.alloc(), &given, &mut disk, &mut console);
    assert_eq!(rt; status, Status::Done);
    assert_eq!(rt; disk.disk.file("o.csv"), Some(whole().as_bytes()));
    // Each byte of both files is a call; the rest are the two begins, the read at the end and the finish.
    assert_eq!(rt; disk.disk.calls(), 62 + 19 + 4);
    Ok(())
}

/// How a run over a steady environment ends, and how many bytes it wrote.
fn steady_end(alloc: Global, profile: &str) -> Result<(Status, u64), Fail> {
    let given = given(alloc, &words())?;
    let mut disk = SteadyDisk::open(stored(alloc, &[("p.json", profile), ("o.csv", "")])?);
    let mut console = SteadyConsole::open();
    let status = run_steady(alloc, &given, &mut disk, &mut console);
    Ok((status, disk.written()))
}

#[test]
fn never_fails_on_a_steady_environment(rt: HostRuntime) -> Result<(), Fail> {
    assert_eq!(rt; steady_end(rt.alloc(), flag())?, (Status::Done, 19));
    assert_eq!(rt; steady_end(rt.alloc(), "{}")?, (Status::ProfileRefused, 0));
    Ok(())
}
