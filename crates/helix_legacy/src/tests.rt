use crate::{LegacyFault, LegacyRule, is_older, rule_count, rule_number, today};
use helix_base::Text;
use helix_json::{Json, Member, read};
use std::alloc::Global;
use std::test::Fail;

/// Whether two values are the same.
#[cycle(same)]
fn is_same(one: &Json, other: &Json) -> bool {
    match (one, other) {
        (Json::Null, Json::Null) => true,
        (Json::Bool(a), Json::Bool(b)) => a == b,
        (Json::Number(a), Json::Number(b)) => a.codes() == b.codes(),
        (Json::Str(a), Json::Str(b)) => a.codes() == b.codes(),
        (Json::List(a), Json::List(b)) => are_same_items(a.as_slice(), b.as_slice()),
        (Json::Object(a), Json::Object(b)) => are_same_members(a.as_slice(), b.as_slice()),
        _ => false,
    }
}

#[cycle(same)]
fn are_same_items(one: &[Json], other: &[Json]) -> bool {
    for (i, item) in one.iter().enumerate() {
        if i >= other.len() || !is_same(item, &other[i]) {
            return false;
        }
    }
    one.len() == other.len()
}

#[cycle(same)]
fn are_same_members(one: &[Member], other: &[Member]) -> bool {
    for (i, member) in one.iter().enumerate() {
        if i >= other.len() || member.key.codes() != other[i].key.codes() {
            return false;
        }
        if !is_same(&member.value, &other[i].value) {
            return false;
        }
    }
    one.len() == other.len()
}

/// The rule and the pointer of a refusal.
fn refused(outcome: Result<Json, LegacyFault>) -> Option<(LegacyRule, Text)> {
    match outcome {
        Ok(_value) => None,
        Err(LegacyFault::Memory) => None,
        Err(LegacyFault::Refused(rule, pointer)) => Some((rule, pointer)),
    }
}

#[test]
fn older_profiles_have_todays_form(rt: HostRuntime) -> Result<(), Fail> {
    let cases = [
        (
            r#"{"fields":[],"rules":[
            {"rule":"small","constraints":[{"field":"n","is":"inSet","values":[1,2,3]}]},
            {"rule":"above one","constraints":[{"field":"n","is":"greaterThan","value":1}]}]}"#,
            r#"{"fields":[],"constraints":[
            {"allOf":[{"field":"n","inSet":[1,2,3]}]},{"allOf":[{"field":"n","greaterThan":1}]}]}"#,
        ),
        (
            r#"{"rules":[{"constraints":[],"rule":"r"}],"x":{"field":"n","is":"null"}}"#,
            r#"{"constraints":[{"allOf":[]}],"x":{"field":"n","is":"null"}}"#,
        ),
        (
            r#"{"rules":[{"rule":"r","constraints":[
            {"not":{"is":"null","field":"n"}},{"anyOf":[{"field":"n","is":"inSet","file":"f"}]},
            {"if":{"field":"n","is":"before","value":1},"then":{"field":"n","isNull":true},
            "else":{"allOf":[{"field":"n","is":"null"}]}}]}]}"#,
            r#"{"constraints":[{"allOf":[
            {"not":{"field":"n","isNull":true}},{"anyOf":[{"field":"n","inSet":"f"}]},
            {"if":{"field":"n","before":1},"then":{"field":"n","isNull":true},
            "else":{"allOf":[{"field":"n","isNull":true}]}}]}]}"#,
        ),
        (
            r#"{"rules":[{"rule":"r","constraints":[
            {"not":{"is":1},"x":2},{"anyOf":{"is":1}},{"not":[{"is":1}]},[{"is":1}]]}]}"#,
            r#"{"constraints":[{"allOf":[{"not":{"is":1},"x":2},{"anyOf":{"is":1}},{"not":[{"is":1}]},[{"is":1}]]}]}"#,
        ),
    ];
    for (older, want) in cases {
        let json = read(rt.alloc(), older.as_bytes())?;
        assert!(rt; is_older(&json), "{older}");
        let value = today(rt.alloc(), &json)?;
        let wanted = read(rt.alloc(), want.as_bytes())?;
        assert!(rt; is_same(&value, &wanted), "{older}");
    }
    Ok(())
}

#[test]
fn the_first_broken_rule_is_refused(rt: HostRuntime) -> Result<(), Fail> {
    let cases = [
        (
            r#"{"rules":1,"constraints":[]}"#,
            LegacyRule::L1,
            "#/constraints",
        ),
        (r#"{"rules":{}}"#, LegacyRule::L2, "#/rules"),
        (
            r#"{"rules":[{"rule":1,"constraints":[]},3]}"#,
            LegacyRule::L2,
            "#/rules/1",
        ),
        (
            r#"{"rules":[{"rule":"a","constraints":[],"x":1}]}"#,
            LegacyRule::L2,
            "#/rules/0",
        ),
        (
            r#"{"rules":[{"rule":"a","constraints":1},1]}"#,
            LegacyRule::L2,
            "#/rules/0/constraints",
        ),
        (
            r#"{"rules":[{"constraints":[{"is":1}],"rule":null}]}"#,
            LegacyRule::L3,
            "#/rules/0/rule",
        ),
        (
            r#"{"rules":[{"rule":"","constraints":[]}]}"#,
            LegacyRule::L3,
            "#/rules/0/rule",
        ),
        (
            r#"{"rules":[{"rule":"a\u007f","constraints":[]}]}"#,
            LegacyRule::L3,
            "#/rules/0/rule",
        ),
        (
            r#"{"rules":[{"rule":"a","constraints":[]},{"rule":"b","constraints":[]},
            {"rule":"a","constraints":[]}]}"#,
            LegacyRule::L3,
            "#/rules/2/rule",
        ),
        (
            r#"{"rules":[{"rule":"a","constraints":[{"field":"n","is":"gt","value":1}]}]}"#,
            LegacyRule::L4,
            "#/rules/0/constraints/0/is",
        ),
        (
            r#"{"rules":[{"rule":"a","constraints":[
            1,{"not":{"anyOf":[2,{"is":"null"}]}},{"is":1}]}]}"#,
            LegacyRule::L4,
            "#/rules/0/constraints/1/not/anyOf/1",
        ),
        (
            r#"{"rules":[{"rule":"a","constraints":[{"field":1,"is":"inSet","values":"x"}]}]}"#,
            LegacyRule::L4,
            "#/rules/0/constraints/0/values",
        ),
        (
            r#"{"rules":[{"rule":"a","constraints":[{"file":[],"is":"inSet","field":1}]}]}"#,
            LegacyRule::L4,
            "#/rules/0/constraints/0/file",
        ),
        (
            r#"{"rules":[{"rule":"a","constraints":[{"if":1,"then":{"is":[]},"else":{"is":"x"}}]}]}"#,
            LegacyRule::L4,
            "#/rules/0/constraints/0/then/is",
        ),
        (
            r#"{"rules":[{"rule":"a","constraints":[{"else":{"is":"x"},"if":1,"then":{"is":[]}}]}]}"#,
            LegacyRule::L4,
            "#/rules/0/constraints/0/else/is",
        ),
        (
            r#"{"rules":[{"rule":"a","constraints":[{"field":1,"is":"isNull","value":1}]}]}"#,
            LegacyRule::L4,
            "#/rules/0/constraints/0/is",
        ),
    ];
    for (text, want_rule, want_place) in cases {
        let json = read(rt.alloc(), text.as_bytes())?;
        assert!(rt; is_older(&json), "{text}");
        let refusal = refused(today(rt.alloc(), &json)).ok_or("not refused")?;
        let want = Text::of(rt.alloc(), want_place)?;
        assert_eq!(rt; refusal.0, want_rule, "{text}");
        assert!(rt; refusal.1.codes() == want.codes(), "{text}");
    }
    Ok(())
}

/// The number of the rule with a name, where the text is a profile of the older form of which no rule is broken.
fn number_of(alloc: Global, text: &str, name: &str) -> Result<Option<u32>, Fail> {
    let json = read(alloc, text.as_bytes())?;
    if !is_older(&json) || rule_count(&json) != 2 {
        return Err(Fail::from("two rules were expected"));
    }
    let _value = today(alloc, &json)?;
    Ok(rule_number(&json, &Text::of(alloc, name)?))
}

#[test]
fn rules_are_numbered_by_their_names(rt: HostRuntime) -> Result<(), Fail> {
    let text =
        r#"{"rules":[{"rule":"small","constraints":[]},{"constraints":[],"rule":"above one"}]}"#;
    let cases = [
        ("small", Some(1)),
        ("above one", Some(2)),
        ("x", None),
        ("", None),
    ];
    for (name, want) in cases {
        assert_eq!(rt; number_of(rt.alloc(), text, name)?, want, "{name}");
    }
    Ok(())
}
