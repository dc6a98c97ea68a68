ghost use Rattle.std.specs.Prelude.{◌≤◌};

use crate::{DataFile, GoodRows, WriteFault, Written, write_file, write_rows};
use helix_base::{Memory, Text};
use helix_output::{Block, Format, LineBuf};
use helix_outside::{Calls, Disk, Files, MemoryDisk};
use helix_profile::{Constraints, Field, Fields, Profile};
use helix_values::{Kind, RowBuf};
use std::alloc::Global;
use std::test::Fail;

/// A profile of one nullable truth value: its good rows are false, true and null.
fn one_flag(alloc: Global) -> Result<Profile, Memory> {
    let mut fields = Fields::new(alloc);
    let name = Text::of(alloc, "a")?;
    fields.push(Field {
        name,
        kind: Kind::Boolean,
        nullable: true,
    })?;
    Ok(Profile::new(fields, Constraints::new(alloc)))
}

/// A disk with a file `p`, whose call of this number fails.
fn disk(alloc: Global, failing: u64) -> Result<MemoryDisk, Fail> {
    let mut calls = Calls::new(alloc);
    calls.push(failing)?;
    let mut files = Files::new(alloc);
    files.put("p", b"kept")?;
    Ok(MemoryDisk::open(files, calls))
}

/// Writes the rows of the flag.
fn written<D: Disk>(alloc: Global, disk: &mut D, file: DataFile<'_>) -> Result<Written, WriteFault>
    requires { 1 ≤ file.limit }
{
    let mut rows = GoodRows::open(alloc, one_flag(alloc)?)?;
    let count = rows.profile().fields().len();
    let mut last = RowBuf::open(alloc, count)?;
    let mut line = LineBuf::open(alloc, rows.profile().fields())?;
    let Ok(mut block) = Block::open(alloc, 64) else {
        return Err(WriteFault::Memory);
    };
    let first = rows.advance(&mut last);
    write_rows(
        disk, file, &mut rows, first, &mut last, &mut line, &mut block,
    )
}

fn held<'a>(disk: &'a MemoryDisk, name: &str) -> Option<&'a str> {
    disk.file(name).and_then(|bytes| str::from_utf8(bytes).ok())
}

#[test]
fn rows_are_written_up_to_the_limit(rt: HostRuntime) -> Result<(), Fail> {
    let cases = [
        (Format::Csv, 1, 1, true, "\"a\"\nfalse\n"),
        (Format::Csv, 2, 2, true, "\"a\"\nfalse\ntrue\n"),
        (Format::Csv, 3, 3, false, "\"a\"\nfalse\ntrue\n\n"),
        (Format::Csv, 4, 3, false, "\"a\"\nfalse\ntrue\n\n"),
        (
            Format::Json,
            2,
            2,
            true,
            "[\n{\"a\":false},\n{\"a\":true}\n]\n",
        ),
        (
            Format::Json,
            9,
            3,
            false,
            "[\n{\"a\":false},\n{\"a\":true},\n{\"a\":null}\n]\n",
        ),
    ];
    for (format, limit, rows, cut, text) in cases {
        let mut disk = disk(rt.alloc(), 0)?;
        let file = DataFile {
            name: "o",
            replace: false,
            format,
            limit,
        };
        assert!(rt; file.limit > 0);
        let answer = written(rt.alloc(), &mut disk, file);
        assert_eq!(rt; answer, Ok(Written { rows, cut }), "{text}");
        assert_eq!(rt; held(&disk, "o"), Some(text));
    }
    Ok(())
}

#[test]
fn a_call_that_fails_leaves_a_prefix(rt: HostRuntime) -> Result<(), Fail> {
    // the call that fails, the name, whether it may be replaced, and what the file holds
    let cases = [
        (1, "o", false, None),
        (2, "o", false, Some("")),
        (3, "o", false, Some("\"a\"\nfalse\ntrue\n\n")),
        (0, "p", false, Some("kept")),
        (1, "p", true, Some("kept")),
        (2, "p", true, Some("")),
    ];
    for (due, name, replace, text) in cases {
        let mut disk = disk(rt.alloc(), due)?;
        let file = DataFile {
            name,
            replace,
            format: Format::Csv,
            limit: 3,
        };
        let answer = written(rt.alloc(), &mut disk, file);
        assert_eq!(rt; answer, Err(WriteFault::Failed), "{due}");
        assert_eq!(rt; held(&disk, name), text, "{due}");
    }
    Ok(())
}

#[test]
fn a_text_is_written(rt: HostRuntime) -> Result<(), Fail> {
    let mut disk = disk(rt.alloc(), 4)?;
    assert_eq!(rt; write_file(&mut disk, "t", b"abc", false).is_ok(), true);
    assert_eq!(rt; held(&disk, "t"), Some("abc"));
    assert_eq!(rt; write_file(&mut disk, "p", b"abc", true).is_ok(), false);
    assert_eq!(rt; held(&disk, "p"), Some("kept"));
    Ok(())
}
