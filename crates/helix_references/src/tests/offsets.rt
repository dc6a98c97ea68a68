use super::{breaks, fields_of_each_kind};
use crate::ReferenceRule::Offset;
use std::test::Fail;

#[test]
fn offsets_of_texts_and_numbers(rt: HostRuntime) -> Result<(), Fail> {
    let fields = fields_of_each_kind(rt.alloc())?;
    let cases = [
        (
            r#"{"field":"s","equalToField":"c","offset":0}"#,
            Some(Offset),
            "#/offset",
        ),
        (
            r#"{"field":"s","offsetUnit":"days","equalToField":"c","offset":1}"#,
            Some(Offset),
            "#/offsetUnit",
        ),
        (
            r#"{"field":"i","equalToField":"d","offset":0.000000000000001}"#,
            None,
            "",
        ),
        (
            r#"{"field":"i","equalToField":"d","offset":1e-16}"#,
            Some(Offset),
            "#/offset",
        ),
        (
            r#"{"field":"i","equalToField":"d","offset":-1e20}"#,
            None,
            "",
        ),
        (
            r#"{"field":"i","equalToField":"d","offset":100000000000000000001}"#,
            Some(Offset),
            "#/offset",
        ),
        (
            r#"{"field":"i","equalToField":"d","offset":"1"}"#,
            Some(Offset),
            "#/offset",
        ),
        (
            r#"{"field":"i","equalToField":"d","offset":1,"offsetUnit":"days"}"#,
            Some(Offset),
            "#/offsetUnit",
        ),
    ];
    for (text, rule, pointer) in cases {
        assert!(rt;
            breaks(rt.alloc(), fields.as_slice(), text, rule, pointer)?,
            "{text}"
        );
    }
    Ok(())
}

#[test]
fn offsets_of_moments(rt: HostRuntime) -> Result<(), Fail> {
    let fields = fields_of_each_kind(rt.alloc())?;
    let cases = [
        (r#""m","afterField":"t","offset":1"#, "#/offset"),
        (
            r#""m","afterField":"t","offsetUnit":"days""#,
            "#/offsetUnit",
        ),
        (
            r#""m","afterField":"t","offset":1.50e1,"offsetUnit":"days""#,
            "",
        ),
        (
            r#""m","afterField":"t","offset":15e-1,"offsetUnit":"days""#,
            "#/offset",
        ),
        (
            r#""m","afterField":"t","offset":null,"offsetUnit":"days""#,
            "#/offset",
        ),
        (
            r#""m","afterField":"t","offset":1,"offsetUnit":"weeks""#,
            "#/offsetUnit",
        ),
        (
            r#""m","afterField":"t","offset":1,"offsetUnit":1"#,
            "#/offsetUnit",
        ),
        (
            r#""m","afterField":"t","offset":3652058,"offsetUnit":"days""#,
            "",
        ),
        (
            r#""m","afterField":"t","offset":-3652059,"offsetUnit":"days""#,
            "#/offset",
        ),
        (
            r#""m","afterField":"t","offset":315537897599999,"offsetUnit":"millis""#,
            "",
        ),
        (
            r#""t","afterField":"m","offset":1,"offsetUnit":"months""#,
            "#/offsetUnit",
        ),
        (
            r#""m","afterField":"t","offset":-119988,"offsetUnit":"months""#,
            "",
        ),
        (
            r#""m","afterField":"t","offset":119989,"offsetUnit":"months""#,
            "#/offset",
        ),
        (
            r#""m","afterField":"t","offset":10000,"offsetUnit":"years""#,
            "#/offset",
        ),
        (
            r#""m","afterField":"t","offset":3652060,"offsetUnit":"workingDays""#,
            "#/offset",
        ),
        (
            r#""m","afterField":"t","offset":1e400,"offsetUnit":"days""#,
            "#/offset",
        ),
        (
            r#""m","afterField":"t","offset":1e400,"offsetUnit":"weeks""#,
            "#/offsetUnit",
        ),
        (
            r#""m","afterField":"t","offset":10.010e2,"offsetUnit":"weeks""#,
            "#/offsetUnit",
        ),
        (
            r#""m","afterField":"t","offset":100e-400,"offsetUnit":"weeks""#,
            "#/offset",
        ),
        (
            r#""m","afterField":"t","offset":0.00e-400,"offsetUnit":"weeks""#,
            "#/offsetUnit",
        ),
    ];
    for (text, pointer) in cases {
        let whole = format!(in rt.alloc(); "{{\"field\":{text}}}")?;
        let rule = if pointer == "" { None } else { Some(Offset) };
        assert!(rt;
            breaks(rt.alloc(), fields.as_slice(), whole.as_str(), rule, pointer)?,
            "{text}"
        );
    }
    Ok(())
}
