//! Tokens that are written and read back.

use crate::{read_token, write_token};
use helix_base::{Alphabet, Bytes, Text};
use helix_output::LineBuf;
use helix_profile::{Field, Fields};
use helix_values::{CellRef, Code, Kind, RowBuf};
use std::alloc::Global;
use std::process::Abort;
use std::test::Fail;

/// The units in one.
const ONE: i128 = 1_000_000_000_000_000;

const GREATEST: i128 = 100_000_000_000_000_000_000 * ONE;

const LAST_MOMENT: i64 = 315_537_897_599_999;

const LAST_DAY: i64 = 315_537_811_200_000;

const TEXT: Kind = Kind::Text(Alphabet::Unicode);

/// The bytes 0 to 30, and 255.
const IDENTITY: [u8; 32] = [
    0, 1, 2, 3, 4, 5, 6, 7, 8, 9, 10, 11, 12, 13, 14, 15, 16, 17, 18, 19, 20, 21, 22, 23, 24, 25,
    26, 27, 28, 29, 30, 255,
];

/// The token with that identity, up to its strings.
fn head() -> &'static str {
    "{\"format\":\"helix-token-1\",\"identity\":\
     \"000102030405060708090a0b0c0d0e0f101112131415161718191a1b1c1d1eff\",\"row\":"
}

/// One field of this kind that may be null.
pub(super) fn one_field(alloc: Global, kind: Kind) -> Result<Fields, Fail> {
    let mut fields = Fields::new(alloc);
    fields.push(Field {
        name: Text::of(alloc, "s")?,
        kind,
        nullable: true,
    })?;
    Ok(fields)
}

/// The token of a row of one cell.
fn written(
    rt: &impl Abort,
    alloc: Global,
    fields: &[Field],
    cell: CellRef<'_>,
) -> Result<Bytes, Fail> {
    let mut row = RowBuf::open(alloc, 1)?;
    assert!(rt; row.len() == 1);
    if let CellRef::Text(codes) = cell {
        assert!(rt; codes.len() <= 1000);
    }
    row.set(0, cell);
    let line = LineBuf::open(alloc, fields)?;
    assert!(rt; line.fits(&row));
    Ok(write_token(alloc, &IDENTITY, fields, &row)?)
}

/// Writes a row of one cell, and reads it back.
fn check(
    rt: &impl Abort,
    alloc: Global,
    kind: Kind,
    cell: CellRef<'_>,
    strings: &str,
) -> Result<(), Fail> {
    let fields = one_field(alloc, kind)?;
    let token = written(rt, alloc, fields.as_slice(), cell)?;
    let want = format!(in alloc; "{}{strings}}}", head())?;
    assert!(rt; token.as_slice() == want.as_bytes(), "{strings}");
    match read_token(alloc, token.as_slice(), &IDENTITY, fields.as_slice()) {
        Ok(row) => match row.as_slice() {
            [only] => assert!(rt; only.view() == cell, "{strings}"),
            _ => panic!(rt; "{strings}"),
        },
        Err(fault) => panic!(rt; "{strings}: {fault}"),
    }
    Ok(())
}

/// `n`, marks and characters of one to four bytes, and an ISIN.
static N: [u32; 1] = [110];

static MARKS: [u32; 6] = [34, 92, 47, 0xe9, 0x20ac, 0x1f600];

static ISIN: [u32; 12] = [85, 83, 48, 51, 55, 56, 51, 51, 49, 48, 48, 53];

/// Values at the ends of their universes, with the strings of their rows.
fn values() -> [(Kind, CellRef<'static>, &'static str); 14] {
    [
        (Kind::Boolean, CellRef::Null, "[\"n\"]"),
        (Kind::Boolean, CellRef::Bool(true), "[\"=true\"]"),
        (
            Kind::Integer,
            CellRef::Number(-GREATEST),
            "[\"=-100000000000000000000\"]",
        ),
        (
            Kind::Integer,
            CellRef::Number(GREATEST),
            "[\"=100000000000000000000\"]",
        ),
        (
            Kind::Decimal,
            CellRef::Number(-1),
            "[\"=-0.000000000000001\"]",
        ),
        (
            Kind::Decimal,
            CellRef::Number(GREATEST - 1),
            "[\"=99999999999999999999.999999999999999\"]",
        ),
        (Kind::Date, CellRef::Moment(0), "[\"=0001-01-01\"]"),
        (Kind::Date, CellRef::Moment(LAST_DAY), "[\"=9999-12-31\"]"),
        (
            Kind::DateTime,
            CellRef::Moment(0),
            "[\"=0001-01-01T00:00:00.000\"]",
        ),
        (
            Kind::DateTime,
            CellRef::Moment(LAST_MOMENT),
            "[\"=9999-12-31T23:59:59.999\"]",
        ),
        (TEXT, CellRef::Text(&[]), "[\"=\"]"),
        (TEXT, CellRef::Text(&N), "[\"=n\"]"),
        (TEXT, CellRef::Text(&MARKS), "[\"=\\\"\\\\/é€😀\"]"),
        (
            Kind::Code(Code::Isin),
            CellRef::Text(&ISIN),
            "[\"=US0378331005\"]",
        ),
    ]
}

#[test]
fn values_are_read_back(rt: HostRuntime) -> Result<(), Fail> {
    for (kind, cell, strings) in values() {
        check(&rt, rt.alloc(), kind, cell, strings)?;
    }
    Ok(())
}
