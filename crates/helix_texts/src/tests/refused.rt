//! Texts that spell no value of a kind.

use crate::{CellFault, read_cell};
use helix_base::{Alphabet, Text};
use helix_values::{Code, Kind};
use std::test::Fail;

#[test]
fn other_texts_are_refused(rt: HostRuntime) -> Result<(), Fail> {
    let cases = [
        (Kind::Boolean, "True"),
        (Kind::Boolean, "1"),
        (Kind::Boolean, ""),
        (Kind::Integer, "2.5"),
        (Kind::Integer, "100000000000000000001"),
        (Kind::Integer, "-100000000000000000001"),
        (Kind::Integer, "01"),
        (Kind::Integer, "+1"),
        (Kind::Integer, "1."),
        (Kind::Integer, ".5"),
        (Kind::Integer, " 1"),
        (Kind::Integer, "1e"),
        (Kind::Integer, ""),
        (Kind::Decimal, "0.1000000000000001"),
        (Kind::Decimal, "1e-16"),
        (Kind::Decimal, "1e21"),
        (Kind::Decimal, "NaN"),
        (Kind::Date, "1900-02-29"),
        (Kind::Date, "2023-02-29"),
        (Kind::Date, "2024-04-31"),
        (Kind::Date, "2024-13-01"),
        (Kind::Date, "2024-00-01"),
        (Kind::Date, "2024-01-00"),
        (Kind::Date, "0000-01-01"),
        (Kind::Date, "10000-01-01"),
        (Kind::Date, "2024-1-01"),
        (Kind::Date, "2024/01/01"),
        (Kind::Date, "2024-01-01T00:00:00.001"),
        (Kind::Date, "2024-01-01 "),
        (Kind::DateTime, "2024-01-01T"),
        (Kind::DateTime, "2024-01-01T24:00:00"),
        (Kind::DateTime, "2024-01-01T23:60:00"),
        (Kind::DateTime, "2024-01-01T23:59:60"),
        (Kind::DateTime, "2024-01-01T23:59"),
        (Kind::DateTime, "2024-01-01T23:59:59."),
        (Kind::DateTime, "2024-01-01T23:59:59.1234"),
        (Kind::DateTime, "2024-01-01T23:59:59.1x"),
        (Kind::DateTime, "2024-01-01T23:59:59z"),
        (Kind::DateTime, "2024-01-01T23:59:59ZZ"),
        (Kind::DateTime, "2024-01-01t23:59:59"),
        (Kind::DateTime, "2024-01-01T23:59:59+00:00"),
        (Kind::DateTime, "2024-01-01Z"),
        (Kind::Text(Alphabet::Basic), "é"),
        (Kind::Code(Code::Isin), "US0378331006"),
        (Kind::Code(Code::Sedol), "B0YBKJ8"),
        (Kind::Code(Code::Cusip), "037833101"),
    ];
    for (kind, spelling) in cases {
        let text = Text::of(rt.alloc(), spelling)?;
        let refused = match read_cell(rt.alloc(), kind, &text) {
            Err(CellFault::NotOfKind) => true,
            _ => false,
        };
        assert!(rt; refused, "{spelling}");
    }
    Ok(())
}
