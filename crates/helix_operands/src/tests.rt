//! Operands, the rules that they break and the tests that they give.

mod given;

use crate::{OperandRule, operand_fault};
use helix_base::{Alphabet, Memory, Text};
use helix_json::{Json, read};
use helix_keywords::Keyword;
use helix_places::{Place, as_list, pointer_of};
use helix_values::{Code, Kind};
use std::alloc::Global;
use std::process::Abort;
use std::test::Fail;

const BASIC: Kind = Kind::Text(Alphabet::Basic);

const LATIN: Kind = Kind::Text(Alphabet::Latin);

const ISIN: Kind = Kind::Code(Code::Isin);

/// Whether the operand breaks the rule first at the place with this pointer, and nowhere where the pointer is empty.
pub fn breaks(
    alloc: Global,
    rule: OperandRule,
    kind: Kind,
    keyword: Keyword,
    operand: &Json,
    pointer: &str,
) -> Result<bool, Memory> {
    match operand_fault(alloc, rule, kind, keyword, operand)? {
        Some(place) => is_at(alloc, &place, pointer),
        None => Ok(pointer.is_empty()),
    }
}

fn is_at(alloc: Global, place: &Place, pointer: &str) -> Result<bool, Memory> {
    let found = pointer_of(alloc, place)?;
    let wanted = Text::of(alloc, pointer)?;
    Ok(found.codes() == wanted.codes())
}

/// Whether each operand breaks the rule itself where the marks have `#`, and nowhere where they have `.`.
fn are_marked(
    alloc: Global,
    rule: OperandRule,
    kind: Kind,
    keyword: Keyword,
    operands: &[Json],
    marks: &[u8],
) -> Result<bool, Memory> {
    for (i, operand) in operands.iter().enumerate() {
        let broken = i < marks.len() && marks[i] == b'#';
        let pointer = if broken { "#" } else { "" };
        if !breaks(alloc, rule, kind, keyword, operand, pointer)? {
            return Ok(false);
        }
    }
    Ok(operands.len() == marks.len())
}

/// Checks the operands of a JSON list.
fn check(
    rt: &impl Abort,
    alloc: Global,
    rule: OperandRule,
    cases: &[(Kind, Keyword, &str, &str)],
) -> Result<(), Fail> {
    for (kind, keyword, text, marks) in cases {
        let list = read(alloc, text.as_bytes())?;
        let holds = match as_list(&list) {
            Some(operands) => are_marked(alloc, rule, *kind, *keyword, operands, marks.as_bytes())?,
            None => false,
        };
        assert!(rt; holds, "{keyword:?} {text}");
    }
    Ok(())
}

#[test]
fn operands_have_json_types(rt: HostRuntime) -> Result<(), Fail> {
    let cases = [
        (Kind::Integer, Keyword::EqualTo, r#"["x",2.5]"#, "#."),
        (Kind::Boolean, Keyword::EqualTo, r#"[1,true]"#, "#."),
        (Kind::Date, Keyword::EqualTo, r#"[null,""]"#, "#."),
        (Kind::Integer, Keyword::InSet, r#"[[],"file",{},1]"#, "..##"),
        (Kind::Integer, Keyword::IsNull, r#"[1,false]"#, "#."),
        (BASIC, Keyword::MatchingRegex, r#"[1,"("]"#, "#."),
        (BASIC, Keyword::OfLength, r#"["5",-1]"#, "#."),
        (Kind::Decimal, Keyword::LessThan, r#"["1",1e99]"#, "#."),
        (Kind::Date, Keyword::Before, r#"[1,"x"]"#, "#."),
        (Kind::Integer, Keyword::GranularTo, r#"["days",10]"#, "#."),
        (Kind::Date, Keyword::GranularTo, r#"[1,"weeks"]"#, "#."),
        (Kind::Boolean, Keyword::GranularTo, r#"[null]"#, "."),
    ];
    check(&rt, rt.alloc(), OperandRule::Type, &cases)
}

#[test]
fn operands_are_values(rt: HostRuntime) -> Result<(), Fail> {
    let cases = [
        (
            Kind::Integer,
            Keyword::EqualTo,
            r#"[1.5,15e-1,10e-1,"x"]"#,
            "##..",
        ),
        (
            Kind::Date,
            Keyword::EqualTo,
            r#"["2024-01-01T00:00:01","2024-01-01T00:00:00.000Z"]"#,
            "#.",
        ),
        (
            Kind::Date,
            Keyword::After,
            r#"["2024-01-01T00:00:01","2023-02-29"]"#,
            ".#",
        ),
        (Kind::Integer, Keyword::InSet, r#"["file",[]]"#, ".."),
        (
            Kind::Integer,
            Keyword::LessThan,
            r#"[1.5,1e20,100000000000000000001,1e-16]"#,
            "..##",
        ),
        (
            ISIN,
            Keyword::EqualTo,
            r#"["US0378331005","US0378331006"]"#,
            ".#",
        ),
        (BASIC, Keyword::EqualTo, r#"["\u00e9"]"#, "#"),
        (LATIN, Keyword::EqualTo, r#"["\u00e9"]"#, "."),
        (BASIC, Keyword::OfLength, "[1001]", "."),
    ];
    check(&rt, rt.alloc(), OperandRule::Value, &cases)
}

#[test]
fn grids_are_of_the_ladder(rt: HostRuntime) -> Result<(), Fail> {
    let cases = [
        (
            Kind::Decimal,
            Keyword::GranularTo,
            r#"[1,1.0,1e-15,0.000000000000001,1e-16,10,0,0.5,-1,"days"]"#,
            "....#####.",
        ),
        (
            Kind::Date,
            Keyword::GranularTo,
            r#"["years","millis","weeks","Days"]"#,
            "..##",
        ),
        (Kind::Date, Keyword::EqualTo, r#"["weeks"]"#, "."),
    ];
    check(&rt, rt.alloc(), OperandRule::Grid, &cases)
}

#[test]
fn lengths_are_whole(rt: HostRuntime) -> Result<(), Fail> {
    let cases = [
        (BASIC, Keyword::OfLength, "[5,5.0,5e0,0,1e3]", "....."),
        (
            BASIC,
            Keyword::LongerThan,
            "[1001,-1,0.5,1e99,null]",
            "####.",
        ),
        (Kind::Integer, Keyword::EqualTo, "[1001]", "."),
    ];
    check(&rt, rt.alloc(), OperandRule::Length, &cases)
}

#[test]
fn patterns_break_no_rule(rt: HostRuntime) -> Result<(), Fail> {
    let cases = [
        (
            BASIC,
            Keyword::MatchingRegex,
            r#"["[A-H]{3}[0-9]{2}","[\u00e9]","("]"#,
            "..#",
        ),
        (BASIC, Keyword::ContainingRegex, r#"["a{2,1}",["("]]"#, "#."),
        (BASIC, Keyword::EqualTo, r#"["("]"#, "."),
    ];
    check(&rt, rt.alloc(), OperandRule::Pattern, &cases)
}
