use super::{breaks, fields_of_each_kind};
use crate::ReferenceRule::{Class, OneClass, Reference, TwoFields};
use std::test::Fail;

#[test]
fn fields_of_constraints_are_declared_and_fit(rt: HostRuntime) -> Result<(), Fail> {
    let fields = fields_of_each_kind(rt.alloc())?;
    let cases = [
        (r#"{"field":"i","equalTo":1}"#, None, ""),
        (r#"{"field":"x","equalTo":1}"#, Some(Reference), "#/field"),
        (r#"{"equalTo":1,"field":["i"]}"#, Some(Reference), "#/field"),
        (
            r#"{"equalToField":"y","field":"x"}"#,
            Some(Reference),
            "#/equalToField",
        ),
        (
            r#"{"field":"x","equalToField":null}"#,
            Some(Reference),
            "#/field",
        ),
        (
            r#"{"field":"i","after":"2024-01-01"}"#,
            Some(Class),
            "#/after",
        ),
        (
            r#"{"field":"c","granularTo":1}"#,
            Some(Class),
            "#/granularTo",
        ),
        (r#"{"field":"c","ofLength":12}"#, None, ""),
        (r#"{"field":"m","granularTo":"days"}"#, None, ""),
        (
            r#"{"field":"b","greaterThanField":"b"}"#,
            Some(Class),
            "#/greaterThanField",
        ),
        (
            r#"{"field":"i","equalToField":"s"}"#,
            Some(OneClass),
            "#/equalToField",
        ),
        (
            r#"{"field":"b","equalToField":"i","offset":1}"#,
            Some(OneClass),
            "#/equalToField",
        ),
        (r#"{"field":"i","equalToField":"d"}"#, None, ""),
        (r#"{"field":"t","beforeField":"m"}"#, None, ""),
        (r#"{"field":"s","equalToField":"c"}"#, None, ""),
        (
            r#"{"field":"i","equalToField":"i"}"#,
            Some(TwoFields),
            "#/equalToField",
        ),
        (r#"{"not":{"field":"x","equalTo":1}}"#, None, ""),
        (r#"{"field":"x"}"#, None, ""),
        ("7", None, ""),
    ];
    for (text, rule, pointer) in cases {
        assert!(rt;
            breaks(rt.alloc(), fields.as_slice(), text, rule, pointer)?,
            "{text}"
        );
    }
    Ok(())
}
