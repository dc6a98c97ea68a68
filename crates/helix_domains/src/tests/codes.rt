//! Codes.

use crate::tests::ask::values_of;
use crate::tests::build::{Check, Value};
use helix_base::Memory;
use helix_values::{Code, Kind};
use std::alloc::Global;
use std::test::Fail;

/// Whether these are the first values of a code, and without the first one the others.
fn come_first(
    alloc: Global,
    code: Code,
    [first, second, third]: [&str; 3],
) -> Result<bool, Memory> {
    let words = [Value::Text(first), Value::Text(second), Value::Text(third)];
    let kind = Kind::Code(code);
    let all = values_of(alloc, kind, &[], &words)?;
    let checks = [(Check::EqualTo(Value::Text(first)), false)];
    let others = values_of(
        alloc,
        kind,
        &checks,
        &[Value::Text(second), Value::Text(third)],
    )?;
    Ok(all == (3, false) && others == (2, false))
}

/// The values of the codes with these letters and digits that come first.
#[test]
fn codes(rt: HostRuntime) -> Result<(), Fail> {
    let cases = [
        (Code::Isin, ["AA0000000006", "AA0000000014", "AA0000000022"]),
        (Code::Sedol, ["0000000", "0000011", "0000022"]),
        (Code::Cusip, ["########4", "#######*8", "#######07"]),
    ];
    for (code, words) in cases {
        assert!(rt; come_first(rt.alloc(), code, words)?);
    }
    Ok(())
}

#[test]
fn one_code(rt: HostRuntime) -> Result<(), Fail> {
    let apple = [Value::Text("US0378331005")];
    let checks = [(Check::EqualTo(Value::Text("US0378331005")), true)];
    let kind = Kind::Code(Code::Isin);
    assert_eq!(rt; values_of(rt.alloc(), kind, &checks, &apple)?, (1, true));
    Ok(())
}
