use crate::{
    constraint_list_fault, constraints_in, field_fault, field_list_fault, name_fault, object_fault,
    profile_key_fault, read_fields, unique_fault,
};
use helix_base::{Alphabet, Memory, Text};
use helix_json::{Items, Json, Member, Members, read};
use helix_places::{Place, pointer_of};
use helix_values::{Code, Kind};
use std::alloc::Global;
use std::test::Fail;

/// The place where a rule is broken.
fn fault(alloc: Global, rule: u32, v: &Json) -> Result<Option<Place>, Memory> {
    match rule {
        1 => object_fault(alloc, v),
        2 => profile_key_fault(alloc, v),
        3 => field_list_fault(alloc, v),
        4 => field_fault(alloc, v),
        5 => name_fault(alloc, v),
        6 => unique_fault(alloc, v),
        _ => constraint_list_fault(alloc, v),
    }
}

/// The number of the first broken rule, and the pointer of its place.
fn first_fault(alloc: Global, v: &Json) -> Result<Option<(u32, Text)>, Memory> {
    for rule in 1..8 {
        if let Some(place) = fault(alloc, rule, v)? {
            return Ok(Some((rule, pointer_of(alloc, &place)?)));
        }
    }
    Ok(None)
}

/// Whether the first broken rule of the value that a text spells is this one, at this pointer.
fn is_refused(alloc: Global, text: &str, rule: u32, place: &str) -> Result<bool, Fail> {
    let json = read(alloc, text.as_bytes())?;
    let (broken, pointer) = first_fault(alloc, &json)?.ok_or("not refused")?;
    let want = Text::of(alloc, place)?;
    Ok(broken == rule && pointer.codes() == want.codes())
}

#[test]
fn the_first_broken_rule_is_refused(rt: HostRuntime) -> Result<(), Fail> {
    let cases = [
        ("[]", 1, "#"),
        (r#"{"constraints":[],"x":[],"fields":1}"#, 2, "#/x"),
        (
            r#"{"fields":[],"schemaVersion":1,"description":null}"#,
            2,
            "#/schemaVersion",
        ),
        (
            r#"{"description":null,"fields":[],"y":1}"#,
            2,
            "#/description",
        ),
        (r#"{"constraints":[]}"#, 3, "#"),
        (r#"{"fields":{}}"#, 3, "#/fields"),
        (r#"{"fields":[]}"#, 3, "#/fields"),
        (r#"{"fields":[1]}"#, 4, "#/fields/0"),
        (
            r#"{"fields":[{"name":"a","type":"date"},{"type":"date","x":1}]}"#,
            4,
            "#/fields/1",
        ),
        (r#"{"fields":[{"x":1,"name":"a"}]}"#, 4, "#/fields/0"),
        (
            r#"{"fields":[{"x":1,"name":2,"type":"date"}]}"#,
            4,
            "#/fields/0/x",
        ),
        (
            r#"{"fields":[{"name":2,"type":"date","x":1}]}"#,
            4,
            "#/fields/0/name",
        ),
        (
            r#"{"fields":[{"type":"number","name":"a"}]}"#,
            4,
            "#/fields/0/type",
        ),
        (
            r#"{"fields":[{"type":["date"],"name":"a"}]}"#,
            4,
            "#/fields/0/type",
        ),
        (
            r#"{"fields":[{"type":"date","name":"a","nullable":0}]}"#,
            4,
            "#/fields/0/nullable",
        ),
        (
            r#"{"fields":[{"type":"date","name":"a","unique":"no"}]}"#,
            4,
            "#/fields/0/unique",
        ),
        (
            r#"{"fields":[{"type":"date","name":"a","description":1}]}"#,
            4,
            "#/fields/0/description",
        ),
        (
            r#"{"fields":[{"name":"","type":"date"}]}"#,
            5,
            "#/fields/0/name",
        ),
        (
            r#"{"fields":[{"name":"a\u007f","type":"date"}]}"#,
            5,
            "#/fields/0/name",
        ),
        (
            r#"{"fields":[{"name":"a","type":"date"},{"name":"b","type":"isin"},{"name":"a","type":"date"},
            {"name":"","type":"date"}]}"#,
            5,
            "#/fields/2/name",
        ),
        (
            r#"{"fields":[{"name":"a","type":"date","unique":false},{"name":"b","type":"date","unique":true}],
            "constraints":1}"#,
            6,
            "#/fields/1/unique",
        ),
        (
            r#"{"fields":[{"name":"a","type":"date"}],"constraints":{}}"#,
            7,
            "#/constraints",
        ),
    ];
    for (text, want_rule, want_place) in cases {
        assert!(rt;
            is_refused(rt.alloc(), text, want_rule, want_place)?,
            "{text}"
        );
    }
    Ok(())
}

/// Whether a value with one member, a list with a number of items, breaks a rule.
fn breaks(alloc: Global, rule: u32, key: &str, count: usize) -> Result<bool, Memory> {
    let mut items = Items::new(alloc);
    for _i in 0..count {
        items.push(Json::Null)?;
    }
    let mut members = Members::new(alloc);
    members.push(Member {
        key: Text::of(alloc, key)?,
        value: Json::List(items),
    })?;
    Ok(fault(alloc, rule, &Json::Object(members))?.is_some())
}

#[test]
fn lists_have_limits(rt: HostRuntime) -> Result<(), Fail> {
    let cases = [
        (3, "fields", 1, false),
        (3, "fields", 64, false),
        (3, "fields", 65, true),
        (7, "constraints", 0, false),
        (7, "constraints", 1000, false),
        (7, "constraints", 1001, true),
    ];
    for (rule, key, count, want) in cases {
        assert_eq!(rt;
            breaks(rt.alloc(), rule, key, count)?,
            want,
            "{key} {count}"
        );
    }
    Ok(())
}

/// Whether a field is as wanted.
fn is_field(alloc: Global, v: &Json, i: usize, want: (&str, Kind, bool)) -> Result<bool, Memory> {
    let fields = read_fields(alloc, Alphabet::Latin, v)?;
    let name = Text::of(alloc, want.0)?;
    Ok(match fields.as_slice().get(i) {
        Some(field) => {
            field.name.codes() == name.codes() && field.kind == want.1 && field.nullable == want.2
        }
        None => false,
    })
}

#[test]
fn fields_are_read(rt: HostRuntime) -> Result<(), Fail> {
    let text = r#"{"description":"d","schemaVersion":"1","fields":[
        {"name":"b","type":"boolean","nullable":false,"unique":false,"description":"x"},
        {"type":"integer","name":"i"},{"name":"d","type":"decimal","nullable":true},
        {"name":"s","type":"string"},{"name":"t","type":"date"},{"name":"u","type":"datetime"},
        {"name":"v","type":"isin"},{"name":"w","type":"sedol"},{"name":"x\u00e9","type":"cusip"}],
        "constraints":[{},1]}"#;
    let cases = [
        ("b", Kind::Boolean, false),
        ("i", Kind::Integer, true),
        ("d", Kind::Decimal, true),
        ("s", Kind::Text(Alphabet::Latin), true),
        ("t", Kind::Date, true),
        ("u", Kind::DateTime, true),
        ("v", Kind::Code(Code::Isin), true),
        ("w", Kind::Code(Code::Sedol), true),
        ("xé", Kind::Code(Code::Cusip), true),
    ];
    let json = read(rt.alloc(), text.as_bytes())?;
    assert!(rt; first_fault(rt.alloc(), &json)?.is_none());
    assert_eq!(rt; constraints_in(&json).len(), 2);
    for (i, want) in cases.into_iter().enumerate() {
        assert!(rt; is_field(rt.alloc(), &json, i, want)?, "{i}");
    }
    Ok(())
}
