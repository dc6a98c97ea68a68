use crate::{FormRule, SizeRule, first_in_constraints};
use helix_base::{Memory, Text};
use helix_json::{Json, read};
use helix_places::{Place, pointer_of};
use std::alloc::Global;
use std::test::Fail;

/// The place where a rule is broken, of S8 and S17.
fn fault(alloc: Global, is_form: bool, v: &Json) -> Result<Option<Place>, Memory> {
    if is_form {
        first_in_constraints(alloc, &FormRule, v)
    } else {
        first_in_constraints(alloc, &SizeRule, v)
    }
}

/// The pointer of the place where a rule is broken, or the empty text.
fn pointer(alloc: Global, is_form: bool, v: &Json) -> Result<Text, Memory> {
    match fault(alloc, is_form, v)? {
        Some(place) => pointer_of(alloc, &place),
        None => Ok(Text::new(alloc)),
    }
}

/// Whether the rules S8 and S17 are first broken at these pointers.
fn breaks_at(alloc: Global, text: &str, form: &str, size: &str) -> Result<bool, Fail> {
    let json = read(alloc, text.as_bytes())?;
    let form_pointer = pointer(alloc, true, &json)?;
    let size_pointer = pointer(alloc, false, &json)?;
    let want_form = Text::of(alloc, form)?;
    let want_size = Text::of(alloc, size)?;
    Ok(form_pointer.codes() == want_form.codes() && size_pointer.codes() == want_size.codes())
}

#[test]
fn the_first_constraint_that_breaks_a_rule_is_found(rt: HostRuntime) -> Result<(), Fail> {
    let cases = [
        (r#"{}"#, "", ""),
        (r#"{"constraints":[]}"#, "", ""),
        (r#"{"constraints":{"x":1}}"#, "", ""),
        (
            r#"{"fields":[{"anyOf":[]}],"constraints":[{"field":1,"equalTo":{}}]}"#,
            "",
            "",
        ),
        (
            r#"{"constraints":[{"field":1,"isNull":true},2]}"#,
            "#/constraints/1",
            "",
        ),
        (
            r#"{"constraints":[{"not":{}},[]]}"#,
            "#/constraints/0/not",
            "",
        ),
        (
            r#"{"constraints":[{"not":{"not":{"anyOf":[[]]}}}]}"#,
            "#/constraints/0/not/not/anyOf/0",
            "",
        ),
        (
            r#"{"constraints":[{"anyOf":{}},{}]}"#,
            "#/constraints/0/anyOf",
            "",
        ),
        (
            r#"{"constraints":[{"not":{"allOf":"x"}}]}"#,
            "#/constraints/0/not/allOf",
            "",
        ),
        (
            r#"{"constraints":[{"then":{"anyOf":[]},"if":{"field":1,"x":1}}]}"#,
            "#/constraints/0/if",
            "#/constraints/0/then/anyOf",
        ),
        (
            r#"{"constraints":[{"if":{"allOf":[]},"then":{"anyOf":[]},"else":1}]}"#,
            "#/constraints/0/else",
            "#/constraints/0/if/allOf",
        ),
        (
            r#"{"constraints":[{"if":1,"else":{"anyOf":[]}},{"allOf":[{"anyOf":[]},{"allOf":[]}]}]}"#,
            "#/constraints/0",
            "#/constraints/1/allOf/0/anyOf",
        ),
        (
            r#"{"constraints":[{"field":1,"inSet":[]},{"anyOf":[{"allOf":[]}]}]}"#,
            "",
            "#/constraints/1/anyOf/0/allOf",
        ),
        (
            r#"{"constraints":[{"anyOf":[],"field":1}]}"#,
            "#/constraints/0",
            "",
        ),
    ];
    for (text, form, size) in cases {
        assert!(rt; breaks_at(rt.alloc(), text, form, size)?, "{text}");
    }
    Ok(())
}
