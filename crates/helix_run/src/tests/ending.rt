//! A run over files in memory, and what it left.

use crate::{Status, run};
use helix_outside::{Calls, Console, Disk, Files, MemoryConsole, MemoryDisk};
use std::alloc::Global;
use std::process::Abort;
use std::test::Fail;

/// What a run left.
#[derive(Drop)]
pub struct Ending {
    pub status: Status,
    pub disk: MemoryDisk,
    pub console: MemoryConsole,
}

/// What a run has to leave: its status, its text, and the bytes of the output, if there is one.
pub type Left<'a> = (Status, &'a str, Option<&'a str>);

/// How a run ends. A proof of a test knows nothing more of it.
pub fn status_of<D: Disk, C: Console>(
    alloc: Global,
    words: &[String],
    disk: &mut D,
    console: &mut C,
) -> Status {
    run(alloc, words, disk, console)
}

pub fn given(alloc: Global, words: &[&str]) -> Result<Vec<String>, Fail> {
    let mut given = Vec::new(alloc);
    for word in words {
        given.push(String::from_str(alloc, word)?)?;
    }
    Ok(given)
}

pub fn stored(alloc: Global, files: &[(&str, &str)]) -> Result<Files, Fail> {
    let mut put = Files::new(alloc);
    for (name, bytes) in files {
        put.put(name, bytes.as_bytes())?;
    }
    Ok(put)
}

fn one_call(alloc: Global, call: u64) -> Result<Calls, Fail> {
    let mut calls = Calls::new(alloc);
    calls.push(call)?;
    Ok(calls)
}

/// A run on words, over files, of which a call of the disk and one of the console fail.
pub fn run_on(
    alloc: Global,
    words: &[&str],
    files: &[(&str, &str)],
    (disk_call, console_call): (u64, u64),
) -> Result<Ending, Fail> {
    let given = given(alloc, words)?;
    let mut disk = MemoryDisk::open(stored(alloc, files)?, one_call(alloc, disk_call)?);
    let mut console = MemoryConsole::open(one_call(alloc, console_call)?);
    let status = status_of(alloc, &given, &mut disk, &mut console);
    Ok(Ending {
        status,
        disk,
        console,
    })
}

/// Compares what a run left with what it has to leave.
pub fn expect(rt: &impl Abort, ending: &Ending, (status, text, output): Left<'_>, of: &str) {
    assert_eq!(rt; ending.status, status, "{of}");
    assert_eq!(rt; ending.console.text(), text.as_bytes(), "{of}");
    match (ending.disk.file("o.csv"), output) {
        (Some(found), Some(wanted)) => assert_eq!(rt; found, wanted.as_bytes(), "{of}"),
        (None, None) => {}
        _ => assert!(rt; false, "the output of {of}"),
    }
}

/// A run on words, over files, leaves what it has to.
pub fn leaves(
    rt: &impl Abort,
    alloc: Global,
    (words, files): (&[&str], &[(&str, &str)]),
    calls: (u64, u64),
    left: Left<'_>,
    of: &str,
) -> Result<(), Fail> {
    let ending = run_on(alloc, words, files, calls)?;
    expect(rt, &ending, left, of);
    Ok(())
}
