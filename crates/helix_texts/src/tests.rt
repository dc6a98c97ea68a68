//! Texts and their values.

mod refused;

use crate::{cell_text, moment_of, moment_text, read_cell, small_text};
use helix_base::{Alphabet, Text};
use helix_values::{CellRef, Code, Kind, in_universe};
use std::alloc::Global;
use std::process::Abort;
use std::test::Fail;

const ONE: i128 = 1_000_000_000_000_000;

const GREATEST: i128 = 100_000_000_000_000_000_000_000_000_000_000_000;

const DAY: i64 = 86_400_000;

/// The written form of a value that is no text, in a buffer and as a text.
fn written(rt: &impl Abort, alloc: Global, kind: Kind, cell: CellRef<'_>) -> Result<String, Fail> {
    assert!(rt; in_universe(kind, cell), "{cell:?}");
    let text = cell_text(alloc, kind, cell)?;
    let mut small = [0; 48];
    let end = match cell {
        CellRef::Bool(_) | CellRef::Number(_) | CellRef::Moment(_) => small_text(
            kind, cell, &mut small,
        ),
        _ => 0,
    };
    let bytes = &small[..end];
    let codes = text.codes();
    assert_eq!(rt; bytes.len(), codes.len(), "{cell:?}");
    for (byte, code) in bytes.iter().zip(codes.iter()) {
        assert_eq!(rt; u32::from(*byte), *code, "{cell:?}");
    }
    Ok(text.written(alloc)?)
}

// The days are those of Python's `datetime.date.toordinal`, less one.
#[test]
fn values_have_texts(rt: HostRuntime) -> Result<(), Fail> {
    let cases = [
        (Kind::Boolean, "true", CellRef::Bool(true), "true"),
        (Kind::Boolean, "false", CellRef::Bool(false), "false"),
        (Kind::Integer, "0", CellRef::Number(0), "0"),
        (Kind::Integer, "-0", CellRef::Number(0), "0"),
        (Kind::Integer, "1.0", CellRef::Number(ONE), "1"),
        (Kind::Integer, "10e-1", CellRef::Number(ONE), "1"),
        (Kind::Integer, "-1E+2", CellRef::Number(-100 * ONE), "-100"),
        (
            Kind::Integer,
            "1e20",
            CellRef::Number(GREATEST),
            "100000000000000000000",
        ),
        (
            Kind::Integer,
            "-100000000000000000000",
            CellRef::Number(-GREATEST),
            "-100000000000000000000",
        ),
        (
            Kind::Integer,
            "18446744073709551616",
            CellRef::Number(18_446_744_073_709_551_616 * ONE),
            "18446744073709551616",
        ),
        (
            Kind::Decimal,
            "0.1",
            CellRef::Number(100_000_000_000_000),
            "0.1",
        ),
        (
            Kind::Decimal,
            "0.000000000000001",
            CellRef::Number(1),
            "0.000000000000001",
        ),
        (
            Kind::Decimal,
            "-0.000000000000001",
            CellRef::Number(-1),
            "-0.000000000000001",
        ),
        (
            Kind::Decimal,
            "0.123456789012345",
            CellRef::Number(123_456_789_012_345),
            "0.123456789012345",
        ),
        (
            Kind::Decimal,
            "0.12345678901234",
            CellRef::Number(123_456_789_012_340),
            "0.12345678901234",
        ),
        (
            Kind::Decimal,
            "0.05",
            CellRef::Number(50_000_000_000_000),
            "0.05",
        ),
        (
            Kind::Decimal,
            "-1.50",
            CellRef::Number(-1_500_000_000_000_000),
            "-1.5",
        ),
        (
            Kind::Decimal,
            "99999999999999999999.999999999999999",
            CellRef::Number(GREATEST - 1),
            "99999999999999999999.999999999999999",
        ),
        (
            Kind::Decimal,
            "1000.0001e3",
            CellRef::Number(1_000_000_100_000_000_000_000),
            "1000000.1",
        ),
        (
            Kind::Decimal,
            "0e99999999999999999999",
            CellRef::Number(0),
            "0",
        ),
        (Kind::Date, "0001-01-01", CellRef::Moment(0), "0001-01-01"),
        (
            Kind::Date,
            "9999-12-31",
            CellRef::Moment(3_652_058 * DAY),
            "9999-12-31",
        ),
        (
            Kind::Date,
            "2024-02-29T00:00:00",
            CellRef::Moment(738_944 * DAY),
            "2024-02-29",
        ),
        (
            Kind::Date,
            "2000-02-29T00:00:00.000Z",
            CellRef::Moment(730_178 * DAY),
            "2000-02-29",
        ),
        (
            Kind::Date,
            "1900-02-28T00:00:00Z",
            CellRef::Moment(693_653 * DAY),
            "1900-02-28",
        ),
        (
            Kind::DateTime,
            "0001-01-01",
            CellRef::Moment(0),
            "0001-01-01T00:00:00.000",
        ),
        (
            Kind::DateTime,
            "9999-12-31T23:59:59.999",
            CellRef::Moment(315_537_897_599_999),
            "9999-12-31T23:59:59.999",
        ),
        (
            Kind::DateTime,
            "2024-02-29T10:20:30",
            CellRef::Moment(738_944 * DAY + 37_230_000),
            "2024-02-29T10:20:30.000",
        ),
        (
            Kind::DateTime,
            "2024-02-29T10:20:30.5",
            CellRef::Moment(738_944 * DAY + 37_230_500),
            "2024-02-29T10:20:30.500",
        ),
        (
            Kind::DateTime,
            "2024-02-29T10:20:30.05Z",
            CellRef::Moment(738_944 * DAY + 37_230_050),
            "2024-02-29T10:20:30.050",
        ),
        (
            Kind::DateTime,
            "2024-02-29T10:20:30.005",
            CellRef::Moment(738_944 * DAY + 37_230_005),
            "2024-02-29T10:20:30.005",
        ),
    ];
    for (kind, spelling, want, form) in cases {
        let text = Text::of(rt.alloc(), spelling)?;
        let read = read_cell(rt.alloc(), kind, &text)?;
        assert_eq!(rt; read.view(), want, "{spelling}");
        assert_eq!(rt;
            written(&rt, rt.alloc(), kind, want)?.as_str(),
            form,
            "{spelling}"
        );
    }
    Ok(())
}

#[test]
fn texts_are_values(rt: HostRuntime) -> Result<(), Fail> {
    let cases = [
        (Kind::Text(Alphabet::Basic), ""),
        (Kind::Text(Alphabet::Basic), " a\"b,~"),
        (Kind::Text(Alphabet::Latin), "é"),
        (Kind::Text(Alphabet::Unicode), "𝄞"),
        (Kind::Code(Code::Isin), "US0378331005"),
        (Kind::Code(Code::Sedol), "B0YBKJ7"),
        (Kind::Code(Code::Cusip), "037833100"),
    ];
    for (kind, spelling) in cases {
        let text = Text::of(rt.alloc(), spelling)?;
        let read = read_cell(rt.alloc(), kind, &text)?;
        let cell = read.view();
        assert_eq!(rt; cell, CellRef::Text(text.codes()), "{spelling}");
        assert!(rt; in_universe(kind, cell), "{spelling}");
        let form = cell_text(rt.alloc(), kind, cell)?;
        assert_eq!(rt; form.written(rt.alloc())?.as_str(), spelling);
    }
    Ok(())
}

#[test]
fn moments_have_texts(rt: HostRuntime) -> Result<(), Fail> {
    let at = 738_944 * DAY + 37_230_005;
    let cases = [
        (Kind::DateTime, "2024-02-29T10:20:30.005"),
        (Kind::Date, "2024-02-29"),
    ];
    for (kind, form) in cases {
        let text = moment_text(rt.alloc(), kind, at)?;
        assert_eq!(rt; text.written(rt.alloc())?.as_str(), form);
    }
    let text = Text::of(rt.alloc(), "2024-02-29T10:20:30.005Z")?;
    assert_eq!(rt; moment_of(&text), Some(at));
    let text = Text::of(rt.alloc(), "2024-02-30")?;
    assert_eq!(rt; moment_of(&text), None);
    Ok(())
}
