use crate::{FieldKeyword, Form, Keyword, form_of};
use helix_json::{Json, read};
use std::alloc::Global;
use std::test::Fail;

/// The form of the object that a text spells.
fn form_in(alloc: Global, text: &str) -> Option<Form> {
    match read(alloc, text.as_bytes()) {
        Ok(Json::Object(members)) => form_of(members.as_slice()),
        _ => None,
    }
}

#[test]
fn forms_are_told_by_all_keys(rt: HostRuntime) -> Result<(), Fail> {
    let after = Some(Form::Related(FieldKeyword::AfterOrAtField));
    let cases = [
        (
            r#"{"field":"a","equalTo":1}"#,
            Some(Form::Atom(Keyword::EqualTo)),
        ),
        (
            r#"{"granularTo":"days","field":"a"}"#,
            Some(Form::Atom(Keyword::GranularTo)),
        ),
        (r#"{"field":"a","equalTo":1,"inSet":[]}"#, None),
        (r#"{"field":"a","equalTo":1,"offset":1}"#, None),
        (r#"{"equalTo":1}"#, None),
        (r#"{"field":"a"}"#, None),
        (r#"{"field":"a","afterOrAtField":"b"}"#, after),
        (r#"{"field":"a","offset":1,"afterOrAtField":"b"}"#, after),
        (
            r#"{"offsetUnit":1,"afterOrAtField":"b","field":"a"}"#,
            after,
        ),
        (
            r#"{"offsetUnit":1,"afterOrAtField":"b","field":"a","offset":0}"#,
            after,
        ),
        (
            r#"{"field":"a","afterOrAtField":"b","beforeField":"b"}"#,
            None,
        ),
        (r#"{"not":{}}"#, Some(Form::Not)),
        (r#"{"not":{},"anyOf":[]}"#, None),
        (r#"{"anyOf":[]}"#, Some(Form::AnyOf)),
        (r#"{"allOf":[]}"#, Some(Form::AllOf)),
        (r#"{"then":{},"if":{}}"#, Some(Form::If)),
        (r#"{"then":{},"else":{},"if":{}}"#, Some(Form::IfElse)),
        (r#"{"if":{},"else":{}}"#, None),
        ("{}", None),
        ("[]", None),
    ];
    for (text, want) in cases {
        assert!(rt; form_in(rt.alloc(), text) == want, "{text}");
    }
    Ok(())
}
