//! The tests that operands give, and the sizes of lists.

use crate::tests::breaks;
use crate::{OperandRule, names_set_file, read_test};
use helix_base::{Alphabet, Memory, Text};
use helix_json::{Json, read};
use helix_keywords::Keyword;
use helix_profile::Test;
use helix_values::{CellRef, Kind};
use std::alloc::Global;
use std::test::Fail;

const BASIC: Kind = Kind::Text(Alphabet::Basic);

const ONE: i128 = 1_000_000_000_000_000;

/// A list of ones, as JSON text.
fn ones(alloc: Global, count: usize) -> Result<Vec<u8>, Memory> {
    let mut text = Vec::new(alloc);
    text.push(b'[')?;
    for i in 0..count {
        if i > 0 {
            text.push(b',')?;
        }
        text.push(b'1')?;
    }
    text.push(b']')?;
    Ok(text)
}

#[test]
fn lists_have_sizes(rt: HostRuntime) -> Result<(), Fail> {
    let cases = [
        (0, "#", -1),
        (1, "", 1),
        (10_000, "", 10_000),
        (10_001, "#", -1),
    ];
    for (count, pointer, members) in cases {
        let text = ones(rt.alloc(), count)?;
        let list = read(rt.alloc(), text.as_slice())?;
        let size = OperandRule::Size;
        let holds = breaks(
            rt.alloc(),
            size,
            Kind::Integer,
            Keyword::InSet,
            &list,
            pointer,
        )?;
        assert!(rt; holds, "{count}");
        let other = breaks(rt.alloc(), size, Kind::Integer, Keyword::EqualTo, &list, "")?;
        assert!(rt; other, "{count}");
        let test = read_test(rt.alloc(), Kind::Integer, Keyword::InSet, &list)?;
        assert_eq!(rt; parts(&test).1, members, "{count}");
    }
    Ok(())
}

/// The name of a test and a number: what it compares with in units or milliseconds, how many members it has, a length,
/// a level. -1 where there is none.
fn parts(test: &Option<Test>) -> (&'static str, i128) {
    match test {
        None => ("none", -1),
        Some(Test::IsNull(wanted)) => ("null", i128::from(*wanted)),
        Some(Test::EqualTo(cell)) => ("equal", size(cell.view())),
        Some(Test::InSet(cells)) => ("set", cells.as_slice().len() as i128),
        Some(Test::Matching(_)) => ("matching", -1),
        Some(Test::Containing(_)) => ("containing", -1),
        Some(Test::OfLength(n)) => ("of length", i128::from(*n)),
        Some(Test::LongerThan(n)) => ("longer", i128::from(*n)),
        Some(Test::ShorterThan(n)) => ("shorter", i128::from(*n)),
        Some(Test::Above(cell)) => ("above", size(cell.view())),
        Some(Test::AtLeast(cell)) => ("at least", size(cell.view())),
        Some(Test::Below(cell)) => ("below", size(cell.view())),
        Some(Test::AtMost(cell)) => ("at most", size(cell.view())),
        Some(Test::OnGrid(level)) => ("grid", i128::from(*level)),
    }
}

fn size(cell: CellRef<'_>) -> i128 {
    match cell {
        CellRef::Null => -1,
        CellRef::Bool(truth) => i128::from(truth),
        CellRef::Number(units) => units,
        CellRef::Moment(at) => i128::from(at),
        CellRef::Text(codes) => codes.len() as i128,
    }
}

#[test]
fn operands_give_tests(rt: HostRuntime) -> Result<(), Fail> {
    let cases = [
        (Kind::Boolean, Keyword::EqualTo, "true", "equal", 1),
        (BASIC, Keyword::InSet, r#"["a","a"]"#, "set", 2),
        (BASIC, Keyword::InSet, r#""file""#, "none", -1),
        (Kind::Date, Keyword::IsNull, "false", "null", 0),
        (BASIC, Keyword::MatchingRegex, r#""a""#, "matching", -1),
        (BASIC, Keyword::ContainingRegex, r#""a""#, "containing", -1),
        (BASIC, Keyword::OfLength, "5e0", "of length", 5),
        (BASIC, Keyword::LongerThan, "0", "longer", 0),
        (BASIC, Keyword::ShorterThan, "1000", "shorter", 1000),
        (Kind::Integer, Keyword::GreaterThan, "0.5", "above", ONE / 2),
        (
            Kind::Integer,
            Keyword::GreaterThanOrEqualTo,
            "-2",
            "at least",
            -2 * ONE,
        ),
        (Kind::Decimal, Keyword::LessThan, "1e1", "below", 10 * ONE),
        (Kind::Decimal, Keyword::LessThanOrEqualTo, "0", "at most", 0),
        (
            Kind::Date,
            Keyword::After,
            r#""0001-01-01T00:00:01""#,
            "above",
            1000,
        ),
        (
            Kind::Date,
            Keyword::AfterOrAt,
            r#""0001-01-01T00:00:00.5""#,
            "at least",
            500,
        ),
        (
            Kind::Date,
            Keyword::Before,
            r#""0001-01-02""#,
            "below",
            86_400_000,
        ),
        (
            Kind::DateTime,
            Keyword::BeforeOrAt,
            r#""0001-01-01T00:01:00Z""#,
            "at most",
            60_000,
        ),
        (Kind::Decimal, Keyword::GranularTo, "0.01", "grid", 13),
        (Kind::Date, Keyword::GranularTo, r#""months""#, "grid", 5),
    ];
    for (kind, keyword, text, name, number) in cases {
        let operand = read(rt.alloc(), text.as_bytes())?;
        let test = read_test(rt.alloc(), kind, keyword, &operand)?;
        assert_eq!(rt; parts(&test), (name, number), "{keyword:?} {text}");
    }
    Ok(())
}

#[test]
fn the_first_faulty_member_is_found(rt: HostRuntime) -> Result<(), Fail> {
    let members = read(rt.alloc(), br#"[1,2.5,"x",3.5,[]]"#)?;
    let cases = [
        (OperandRule::Type, "#/2"),
        (OperandRule::Value, "#/1"),
        (OperandRule::Size, ""),
    ];
    for (rule, pointer) in cases {
        let holds = breaks(
            rt.alloc(),
            rule,
            Kind::Integer,
            Keyword::InSet,
            &members,
            pointer,
        )?;
        assert!(rt; holds, "{rule:?}");
    }
    Ok(())
}

#[test]
fn set_files_are_named_by_strings(rt: HostRuntime) -> Result<(), Fail> {
    let name = Json::Str(Text::of(rt.alloc(), "file")?);
    assert!(rt; names_set_file(Keyword::InSet, &name));
    assert!(rt; !names_set_file(Keyword::EqualTo, &name));
    assert!(rt; !names_set_file(Keyword::InSet, &Json::Null));
    Ok(())
}
