use crate::{Breach, PROFILE_RULES, Rule, first_breach};
use helix_base::{Alphabet, Memory, Text};
use helix_json::{Json, read};
use helix_places::pointer_of;
use std::alloc::Global;
use std::test::Fail;

/// Fields of each class: a boolean `b`, integers `i` and `j`, a decimal `n`, a string `s`, a date `d`, a date-time `t`.
const FIELDS: &str = concat!(
    r#"{"fields":[{"name":"b","type":"boolean"},{"name":"i","type":"integer"},"#,
    r#"{"name":"n","type":"decimal"},{"name":"j","type":"integer"},{"name":"s","type":"string"},"#,
    r#"{"name":"d","type":"date"},{"name":"t","type":"datetime"}],"constraints":["#,
);

/// The first breach of S1, and then of S2 to S21.
fn breach(alloc: Global, v: &Json) -> Result<Option<Breach>, Memory> {
    match first_breach(alloc, Alphabet::Basic, &[Rule::S1], v)? {
        Some(breach) => Ok(Some(breach)),
        None => first_breach(alloc, Alphabet::Basic, &PROFILE_RULES, v),
    }
}

/// Whether a breach is of the rule with this name, and its place has this pointer.
fn is_at(alloc: Global, breach: &Breach, rule: &str, pointer: &str) -> Result<bool, Memory> {
    let found = pointer_of(alloc, &breach.place)?;
    let want = Text::of(alloc, pointer)?;
    Ok(breach.rule.name() == rule && found.codes() == want.codes())
}

/// Whether the value that a text spells breaks this rule first, and none where the rule's name is empty.
fn is_refused(alloc: Global, text: &[u8], rule: &str, pointer: &str) -> Result<bool, Fail> {
    let json = read(alloc, text)?;
    match breach(alloc, &json)? {
        Some(breach) => Ok(is_at(alloc, &breach, rule, pointer)?),
        None => Ok(rule.is_empty()),
    }
}

/// The same of a profile with fields of each class and these constraints.
fn are_refused(alloc: Global, constraints: &str, rule: &str, pointer: &str) -> Result<bool, Fail> {
    let mut text = Vec::from_slice(alloc, FIELDS.as_bytes())?;
    text.extend_from_slice(constraints.as_bytes())?;
    text.extend_from_slice(b"]}")?;
    is_refused(alloc, text.as_slice(), rule, pointer)
}

#[test]
fn the_first_broken_rule_of_a_profile_is_found(rt: HostRuntime) -> Result<(), Fail> {
    let cases = [
        ("[]", "S1", "#"),
        (r#"{"x":1}"#, "S2", "#/x"),
        (r#"{"constraints":1}"#, "S3", "#"),
        (r#"{"fields":[1],"constraints":1}"#, "S4", "#/fields/0"),
        (
            r#"{"fields":[{"name":"","type":"date","unique":true}]}"#,
            "S5",
            "#/fields/0/name",
        ),
        (
            r#"{"constraints":{},"fields":[{"name":"a","type":"date","unique":true}]}"#,
            "S6",
            "#/fields/0/unique",
        ),
        (
            r#"{"constraints":{},"fields":[{"name":"a","type":"date"}]}"#,
            "S7",
            "#/constraints",
        ),
        (r#"{"fields":[{"name":"a","type":"date"}]}"#, "", ""),
    ];
    for (text, rule, place) in cases {
        assert!(rt;
            is_refused(rt.alloc(), text.as_bytes(), rule, place)?,
            "{text}"
        );
    }
    Ok(())
}

#[test]
fn the_first_relation_that_closes_a_cycle_is_found(rt: HostRuntime) -> Result<(), Fail> {
    let cases = [
        (
            concat!(
                r#"{"field":"i","equalToField":"n"},{"not":{"field":"j","lessThanField":"n"}},"#,
                r#"{"field":"j","equalToField":"i"}"#,
            ),
            "S21",
            "#/constraints/2/equalToField",
        ),
        (
            concat!(
                r#"{"anyOf":[{"field":"i","equalToField":"n"},{"greaterThanField":"i","field":"j"}]},"#,
                r#"{"if":{"field":"n","lessThanField":"j"},"then":{"field":"i","equalToField":"j"}}"#,
            ),
            "S21",
            "#/constraints/1/if/lessThanField",
        ),
        (
            concat!(
                r#"{"field":"i","equalToField":"n"},{"field":"n","lessThanField":"i"},"#,
                r#"{"field":"i","equalToField":"j"},{"field":"d","equalToField":"t"}"#,
            ),
            "",
            "",
        ),
        (
            concat!(
                r#"{"field":"i","equalToField":"n"},{"field":"j","lessThanField":"n"},"#,
                r#"{"field":"j","equalToField":"i"},{"field":"d","afterField":"t","offset":1}"#,
            ),
            "S20",
            "#/constraints/3/offset",
        ),
    ];
    for (constraints, rule, place) in cases {
        assert!(rt;
            are_refused(rt.alloc(), constraints, rule, place)?,
            "{constraints}"
        );
    }
    Ok(())
}

#[test]
fn the_first_broken_rule_of_constraints_is_found(rt: HostRuntime) -> Result<(), Fail> {
    let cases = [
        (
            r#"{"field":"s","equalTo":1,"x":1}"#,
            "S8",
            "#/constraints/0",
        ),
        (
            r#"{"field":"z","equalTo":1},{"not":{"anyOf":1}}"#,
            "S8",
            "#/constraints/1/not/anyOf",
        ),
        (
            r#"{"field":"s","after":1},{"equalToField":"z","field":"i"}"#,
            "S9",
            "#/constraints/1/equalToField",
        ),
        (
            r#"{"not":{"field":"s","equalTo":1}},{"field":"i","after":1}"#,
            "S10",
            "#/constraints/1/after",
        ),
        (
            r#"{"field":"i","equalTo":0.5},{"field":"i","inSet":[1,"x"]}"#,
            "S11",
            "#/constraints/1/inSet/1",
        ),
        (
            r#"{"anyOf":[]},{"allOf":[{"inSet":[1,2.0,2.5],"field":"i"}]}"#,
            "S12",
            "#/constraints/1/allOf/0/inSet/2",
        ),
        (
            r#"{"field":"n","granularTo":2},{"field":"s","inSet":[]}"#,
            "S13",
            "#/constraints/1/inSet",
        ),
        (
            concat!(
                r#"{"field":"s","ofLength":-1},"#,
                r#"{"if":{"field":"d","granularTo":"weeks"},"then":{"field":"b","isNull":true}}"#,
            ),
            "S14",
            "#/constraints/1/if/granularTo",
        ),
        (
            r#"{"field":"s","matchingRegex":"("},{"field":"s","longerThan":1001}"#,
            "S15",
            "#/constraints/1/longerThan",
        ),
        (
            r#"{"anyOf":[]},{"field":"s","containingRegex":"("}"#,
            "S16",
            "#/constraints/1/containingRegex",
        ),
        (
            r#"{"field":"i","equalToField":"s"},{"anyOf":[]}"#,
            "S17",
            "#/constraints/1/anyOf",
        ),
        (
            r#"{"field":"i","equalToField":"i"},{"field":"i","equalToField":"s"}"#,
            "S18",
            "#/constraints/1/equalToField",
        ),
        (
            r#"{"field":"i","equalToField":"n","offset":"x"},{"field":"i","equalToField":"i"}"#,
            "S19",
            "#/constraints/1/equalToField",
        ),
        (
            r#"{"field":"t","afterField":"d","offset":1},{"field":"t","afterField":"d","offsetUnit":"days"}"#,
            "S20",
            "#/constraints/0/offset",
        ),
        (
            r#"{"field":"t","afterField":"d","offset":1,"offsetUnit":"days"},{"field":"s","inSet":"names.csv"}"#,
            "",
            "",
        ),
    ];
    for (constraints, rule, place) in cases {
        assert!(rt;
            are_refused(rt.alloc(), constraints, rule, place)?,
            "{constraints}"
        );
    }
    Ok(())
}
