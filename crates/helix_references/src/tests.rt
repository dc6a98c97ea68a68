use crate::{ReferenceRule, read_relation, reference_fault};
use helix_base::{Alphabet, Memory, Text};
use helix_json::{Json, read};
use helix_keywords::{Form, form_of};
use helix_places::pointer_of;
use helix_profile::{Compare, Field, Fields, Relation};
use helix_values::{Code, Kind, Offset};
use std::alloc::Global;
use std::test::Fail;

mod offsets;
mod rules;

/// A field of each kind, and a second date.
fn fields_of_each_kind(alloc: Global) -> Result<Fields, Memory> {
    let kinds = [
        ("b", Kind::Boolean),
        ("i", Kind::Integer),
        ("d", Kind::Decimal),
        ("s", Kind::Text(Alphabet::Basic)),
        ("t", Kind::Date),
        ("u", Kind::Date),
        ("m", Kind::DateTime),
        ("c", Kind::Code(Code::Isin)),
    ];
    let mut fields = Fields::new(alloc);
    for (name, kind) in kinds {
        fields.push(Field {
            name: Text::of(alloc, name)?,
            kind,
            nullable: false,
        })?;
    }
    Ok(fields)
}

/// The first broken rule with its pointer.
fn first_broken(
    alloc: Global,
    fields: &[Field],
    text: &str,
) -> Result<Option<(ReferenceRule, Text)>, Memory> {
    let rules = [
        ReferenceRule::Reference,
        ReferenceRule::Class,
        ReferenceRule::OneClass,
        ReferenceRule::TwoFields,
        ReferenceRule::Offset,
    ];
    let Ok(json) = read(alloc, text.as_bytes()) else {
        return Ok(None);
    };
    for rule in rules {
        if let Some(place) = reference_fault(alloc, rule, fields, &json)? {
            return Ok(Some((rule, pointer_of(alloc, &place)?)));
        }
    }
    Ok(None)
}

/// Whether this rule is the first that is broken, there; or none is.
fn breaks(
    alloc: Global,
    fields: &[Field],
    text: &str,
    rule: Option<ReferenceRule>,
    pointer: &str,
) -> Result<bool, Memory> {
    let pointer = Text::of(alloc, pointer)?;
    match first_broken(alloc, fields, text)? {
        Some((broken, at)) => Ok(rule == Some(broken) && at.codes() == pointer.codes()),
        None => Ok(rule == None),
    }
}

/// The relation that a text gives.
fn given(alloc: Global, fields: &[Field], text: &str) -> Option<Relation> {
    if fields.len() > 64 {
        return None;
    }
    match read(alloc, text.as_bytes()) {
        Ok(Json::Object(members)) => match form_of(members.as_slice()) {
            Some(Form::Related(keyword)) => read_relation(fields, members.as_slice(), keyword),
            _ => None,
        },
        _ => None,
    }
}

#[test]
fn relations_are_read(rt: HostRuntime) -> Result<(), Fail> {
    let fields = fields_of_each_kind(rt.alloc())?;
    let cases = [
        (
            r#"{"field":"s","equalToField":"c"}"#,
            3,
            Compare::Equal,
            7,
            Offset::Plain(0),
        ),
        (
            r#"{"field":"i","lessThanField":"d","offset":-1.5}"#,
            1,
            Compare::Below,
            2,
            Offset::Plain(-1_500_000_000_000_000),
        ),
        (
            r#"{"offset":1e1,"offsetUnit":"hours","field":"m","afterOrAtField":"t"}"#,
            6,
            Compare::AtLeast,
            4,
            Offset::Plain(36_000_000),
        ),
        (
            r#"{"offset":-3,"offsetUnit":"months","field":"m","beforeOrAtField":"t"}"#,
            6,
            Compare::AtMost,
            4,
            Offset::Months(-3),
        ),
        (
            r#"{"offset":9999,"offsetUnit":"years","field":"u","afterField":"t"}"#,
            5,
            Compare::Above,
            4,
            Offset::Years(9999),
        ),
        (
            r#"{"offset":0,"offsetUnit":"workingDays","field":"u","beforeField":"t"}"#,
            5,
            Compare::Below,
            4,
            Offset::WorkingDays(0),
        ),
    ];
    for (text, left, compare, right, offset) in cases {
        let want = Relation {
            left,
            compare,
            right,
            offset,
        };
        assert!(rt;
            given(rt.alloc(), fields.as_slice(), text) == Some(want),
            "{text}"
        );
    }
    Ok(())
}
