//! The check rules of codes.

use crate::{CellRef, Code, Kind, in_universe, valid};
use helix_base::Text;
use std::test::Fail;

/// Words, and whether they are valid.
type Words = &'static [(&'static str, bool)];

// The words of the BAE Systems, Apple, Oracle and Cisco shares, and published examples.
fn isins() -> Words {
    &[
        ("US0378331005", true),
        ("GB0002634946", true),
        ("AA0000000006", true),
        ("AA0000000014", true),
        ("AA0000000022", true),
        ("US0378331006", false),
        ("AA0000000005", false),
        ("us0378331005", false),
        ("0S0378331005", false),
        ("US037833100", false),
        ("US03783310055", false),
        ("US03783310A5", false),
        ("", false),
    ]
}

fn sedols() -> Words {
    &[
        ("0263494", true),
        ("0000000", true),
        ("0000011", true),
        ("0000022", true),
        ("B0YBKJ7", true),
        ("B0YBLH2", true),
        ("7108899", true),
        ("0263495", false),
        ("B0YBKA7", false),
        ("026349Z", false),
        ("026349", false),
    ]
}

fn cusips() -> Words {
    &[
        ("037833100", true),
        ("68389X105", true),
        ("17275R102", true),
        ("########4", true),
        ("#######*8", true),
        ("#######07", true),
        ("037833101", false),
        ("########*", false),
        ("68389x105", false),
        ("0378331001", false),
    ]
}

#[test]
fn codes_have_check_digits(rt: HostRuntime) -> Result<(), Fail> {
    for (code, words) in [
        (Code::Isin, isins()),
        (Code::Sedol, sedols()),
        (Code::Cusip, cusips()),
    ] {
        for (string, want) in words {
            let text = Text::of(rt.alloc(), string)?;
            let cell = CellRef::Text(text.codes());
            assert_eq!(rt; valid(code, text.codes()), *want, "{string}");
            assert_eq!(rt; in_universe(Kind::Code(code), cell), *want, "{string}");
        }
    }
    Ok(())
}
