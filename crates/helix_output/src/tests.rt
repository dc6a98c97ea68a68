//! Lines of single cells. `blocks` and `trade` have the way to a disk, and lines of several cells.

mod blocks;
mod trade;

use crate::{LineBuf, csv_row, json_row};
use helix_base::{Alphabet, Text};
use helix_profile::{Field, Fields};
use helix_values::{CellRef, Code, Kind, RowBuf};
use std::alloc::Global;
use std::process::Abort;
use std::test::Fail;

/// The units in one.
const ONE: i128 = 1_000_000_000_000_000;

const GREATEST: i128 = 100_000_000_000_000_000_000_000_000_000_000_000;

const LAST_MOMENT: i64 = 315_537_897_599_999;

const TEXT: Kind = Kind::Text(Alphabet::Unicode);

/// A line of one field of this kind, whose name is `s`.
fn one_field(alloc: Global, kind: Kind) -> Result<LineBuf, Fail> {
    let mut fields = Fields::new(alloc);
    fields.push(Field {
        name: Text::of(alloc, "s")?,
        kind,
        nullable: false,
    })?;
    Ok(LineBuf::open(alloc, fields.as_slice())?)
}

fn text_of(bytes: &[u8]) -> Option<&str> {
    str::from_utf8(bytes).ok()
}

fn set(rt: &impl Abort, row: &mut RowBuf, i: usize, cell: CellRef<'_>) {
    assert!(rt; i < row.len());
    if let CellRef::Text(codes) = cell {
        assert!(rt; codes.len() <= 1000);
    }
    row.set(i, cell);
}

fn write_csv(rt: &impl Abort, line: &mut LineBuf, row: &RowBuf) {
    assert!(rt; line.fits(row));
    csv_row(line, row);
}

fn write_json(rt: &impl Abort, line: &mut LineBuf, row: &RowBuf, first: bool) -> Result<(), Fail> {
    assert!(rt; line.fits(row));
    json_row(line, row, first)?;
    Ok(())
}

/// Writes a row of one cell in both formats.
fn check(
    rt: &impl Abort,
    alloc: Global,
    kind: Kind,
    cell: CellRef<'_>,
    csv: &str,
    json: &str,
) -> Result<(), Fail> {
    let mut line = one_field(alloc, kind)?;
    let mut row = RowBuf::open(alloc, 1)?;
    set(rt, &mut row, 0, cell);
    write_csv(rt, &mut line, &row);
    assert_eq!(rt; text_of(line.bytes()), Some(csv));
    write_json(rt, &mut line, &row, true)?;
    assert_eq!(rt; text_of(line.bytes()), Some(json));
    Ok(())
}

#[test]
fn values_and_null_are_written(rt: HostRuntime) -> Result<(), Fail> {
    let cases = [
        (
            Kind::Boolean,
            CellRef::Bool(false),
            "false\n",
            "\n{\"s\":false}",
        ),
        (
            Kind::Boolean,
            CellRef::Bool(true),
            "true\n",
            "\n{\"s\":true}",
        ),
        (Kind::Boolean, CellRef::Null, "\n", "\n{\"s\":null}"),
        (
            Kind::Integer,
            CellRef::Number(-7 * ONE),
            "-7\n",
            "\n{\"s\":-7}",
        ),
        (
            Kind::Decimal,
            CellRef::Number(-1),
            "-0.000000000000001\n",
            "\n{\"s\":-0.000000000000001}",
        ),
        (
            Kind::Date,
            CellRef::Moment(0),
            "0001-01-01\n",
            "\n{\"s\":\"0001-01-01\"}",
        ),
        (Kind::Date, CellRef::Null, "\n", "\n{\"s\":null}"),
        (TEXT, CellRef::Null, "\n", "\n{\"s\":null}"),
        (
            Kind::Code(Code::Sedol),
            CellRef::Text([0x30, 0x32, 0x36, 0x33, 0x34, 0x39, 0x34].as_slice()),
            "\"0263494\"\n",
            "\n{\"s\":\"0263494\"}",
        ),
    ];
    for (kind, cell, csv, json) in cases {
        check(&rt, rt.alloc(), kind, cell, csv, json)?;
    }
    Ok(())
}

#[test]
fn the_ends_of_universes_are_written(rt: HostRuntime) -> Result<(), Fail> {
    let cases = [
        (
            Kind::Integer,
            CellRef::Number(GREATEST),
            "100000000000000000000\n",
            "\n{\"s\":100000000000000000000}",
        ),
        (
            Kind::Decimal,
            CellRef::Number(1 - GREATEST),
            "-99999999999999999999.999999999999999\n",
            "\n{\"s\":-99999999999999999999.999999999999999}",
        ),
        (
            Kind::DateTime,
            CellRef::Moment(LAST_MOMENT),
            "9999-12-31T23:59:59.999\n",
            "\n{\"s\":\"9999-12-31T23:59:59.999\"}",
        ),
    ];
    for (kind, cell, csv, json) in cases {
        check(&rt, rt.alloc(), kind, cell, csv, json)?;
    }
    Ok(())
}

#[test]
fn texts_are_quoted(rt: HostRuntime) -> Result<(), Fail> {
    let cases = [
        ("", "\"\"\n", "\n{\"s\":\"\"}"),
        ("a\"b,", "\"a\"\"b,\"\n", "\n{\"s\":\"a\\\"b,\"}"),
        ("\"", "\"\"\"\"\n", "\n{\"s\":\"\\\"\"}"),
        ("\\n/", "\"\\n/\"\n", "\n{\"s\":\"\\\\n/\"}"),
        (
            "\u{E9}\u{20AC}\u{1F600}",
            "\"\u{E9}\u{20AC}\u{1F600}\"\n",
            "\n{\"s\":\"\u{E9}\u{20AC}\u{1F600}\"}",
        ),
    ];
    for (text, csv, json) in cases {
        let text = Text::of(rt.alloc(), text)?;
        check(
            &rt,
            rt.alloc(),
            TEXT,
            CellRef::Text(text.codes()),
            csv,
            json,
        )?;
    }
    Ok(())
}

#[test]
fn the_longest_text_has_room(rt: HostRuntime) -> Result<(), Fail> {
    let longest = [0x10_FFFF; 1000];
    let mut line = one_field(rt.alloc(), TEXT)?;
    let mut row = RowBuf::open(rt.alloc(), 1)?;
    set(&rt, &mut row, 0, CellRef::Text(longest.as_slice()));
    write_csv(&rt, &mut line, &row);
    assert_eq!(rt; line.bytes().len(), 4003);
    Ok(())
}
