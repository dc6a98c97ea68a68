mod disks;

use crate::{Calls, Console, Disk, Failed, Files, MemoryConsole, SteadyConsole, SteadyDisk};
use disks::{copies_two_bytes, next_piece};
use std::alloc::Global;
use std::test::Fail;

/// Two files: `in` and the empty `é`.
fn two_files(alloc: Global) -> Result<Files, Fail> {
    let mut files = Files::new(alloc);
    files.put("in", b"abcde")?;
    files.put("é", b"")?;
    Ok(files)
}

fn listed(alloc: Global, numbers: &[u64]) -> Result<Calls, Fail> {
    let mut calls = Calls::new(alloc);
    for number in numbers {
        calls.push(*number)?;
    }
    Ok(calls)
}

fn text_of(bytes: Option<&[u8]>) -> Option<&str> {
    bytes.and_then(|bytes| str::from_utf8(bytes).ok())
}

/// Files of which some were put twice, and some had bytes appended.
fn put_and_appended(alloc: Global) -> Result<Files, Fail> {
    let mut files = Files::new(alloc);
    for (name, bytes) in [("a", "1"), ("é", "2"), ("", "3"), ("a", "45"), ("ab", "")] {
        files.put(name, bytes.as_bytes())?;
    }
    for (name, bytes) in [("ab", "67"), ("ab", "8"), ("c", ""), ("d", "9")] {
        files.append(name.as_bytes(), bytes.as_bytes())?;
    }
    Ok(files)
}

#[test]
fn files_hold_what_was_put_last(rt: HostRuntime) -> Result<(), Fail> {
    let files = put_and_appended(rt.alloc())?;
    let cases = [
        ("a", Some("45")),
        ("é", Some("2")),
        ("e\u{301}", None),
        ("", Some("3")),
        ("ab", Some("678")),
        ("A", None),
        ("./a", None),
        ("c", None),
        ("d", Some("9")),
    ];
    for (name, want) in cases {
        assert_eq!(rt; text_of(files.get(name.as_bytes())), want, "{name}");
    }
    Ok(())
}

#[test]
fn calls_are_listed_in_order(rt: HostRuntime) -> Result<(), Fail> {
    let calls = listed(rt.alloc(), &[3, 1, u64::MAX])?;
    assert_eq!(rt; calls.as_slice(), [3, 1, u64::MAX].as_slice());
    Ok(())
}

#[test]
fn a_failure_has_a_text(rt: HostRuntime) -> Result<(), Fail> {
    let text = format!(in rt.alloc(); "{}", Failed)?;
    assert_eq!(rt; text.as_str(), "the disk or the console failed");
    Ok(())
}

/// Writes three lines, and tells whether one failed.
fn writes_three_lines(console: &mut MemoryConsole) -> bool {
    let mut failed = false;
    for line in ["a", "", "é"] {
        failed = console.line(line.as_bytes()).is_err() || failed;
    }
    failed
}

#[test]
fn a_listed_line_adds_nothing(rt: HostRuntime) -> Result<(), Fail> {
    for (due, text, fails) in [
        (0, "a\n\né\n", false),
        (1, "\né\n", true),
        (2, "a\né\n", true),
        (3, "a\n\n", true),
        (4, "a\n\né\n", false),
    ] {
        let mut console = MemoryConsole::open(listed(rt.alloc(), &[due])?);
        let failed = writes_three_lines(&mut console);
        assert_eq!(rt; text_of(Some(console.text())), Some(text), "{due}");
        assert_eq!(rt;
            (failed, console.faults()),
            (fails, u64::from(fails)),
            "{due}"
        );
    }
    Ok(())
}

/// A file of a steady disk, up to eight bytes.
fn read_whole<'a>(
    disk: &mut SteadyDisk,
    name: &str,
    buffer: &'a mut [u8],
) -> Result<&'a [u8], Failed> {
    disk.begin_read(name)?;
    next_piece(disk, buffer)
}

#[test]
fn a_steady_disk_reads_and_counts(rt: HostRuntime) -> Result<(), Fail> {
    let mut disk = SteadyDisk::open(two_files(rt.alloc())?);
    copies_two_bytes(&mut disk)?;
    assert_eq!(rt; disk.written(), 2);
    for (name, want) in [("in", "abcde"), ("é", ""), ("out", ""), ("gone", "")] {
        let mut buffer = [0; 8];
        let found = read_whole(&mut disk, name, &mut buffer)?;
        assert_eq!(rt; text_of(Some(found)), Some(want), "{name}");
    }
    Ok(())
}

#[test]
fn a_steady_console_takes_lines(_rt: HostRuntime) -> Result<(), Fail> {
    SteadyConsole::open().line(b"a")?;
    Ok(())
}
