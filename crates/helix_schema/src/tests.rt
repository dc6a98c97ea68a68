use crate::{Draft, Location, Refusal, SchemaFault, Unfinished, read_profile};
use helix_base::{Alphabet, Memory, Text};
use helix_json::read;
use helix_places::pointer_of;
use helix_profile::{Constraint, Test};
use helix_values::{Cell, Cells, Kind, in_universe};
use std::alloc::Global;
use std::test::Fail;

/// The same draft, where a set file is still wanted.
fn unfinished(alloc: Global, draft: Draft) -> Option<Draft> {
    match draft.finish(alloc) {
        Err(Unfinished::Wanted(same)) => Some(same),
        _ => None,
    }
}

/// Whether the set file that is wanted next has this number, and this name, kind and pointer.
fn is_wanted(
    alloc: Global,
    draft: &Draft,
    number: u64,
    want: (&str, Kind, &str),
) -> Result<bool, Memory> {
    let Some(wanted) = draft.next_wanted() else {
        return Ok(false);
    };
    let name = Text::of(alloc, want.0)?;
    let pointer = Text::of(alloc, want.2)?;
    Ok(
        wanted.number == number
            && wanted.name.codes() == name.codes()
            && wanted.kind == want.1
            && pointer_of(alloc, wanted.place)?.codes() == pointer.codes(),
    )
}

/// One member of a set file: a text for texts, and 0 for any other kind.
fn one_member(alloc: Global, kind: Kind) -> Result<Cell, Memory> {
    match kind {
        Kind::Text(_) => Ok(Cell::Text(Text::of(alloc, "x")?)),
        _ => Ok(Cell::Number(0)),
    }
}

/// Whether a set file is wanted; it gets one member.
fn fill_next(alloc: Global, draft: &mut Draft) -> Result<bool, Memory> {
    let Some(wanted) = draft.next_wanted() else {
        return Ok(false);
    };
    let kind = wanted.kind;
    let member = one_member(alloc, kind)?;
    if !in_universe(kind, member.view()) {
        return Ok(false);
    }
    let mut members = Cells::new(alloc);
    members.push(member)?;
    draft.fill(members);
    Ok(true)
}

/// Appends the sets of a constraint in short: `t` for a text, `n` for any other member, `;` after each set, `(..)` for
/// lists and `.` for other constraints.
#[cycle(show)]
fn show(out: &mut Vec<u8>, constraint: &Constraint) -> Result<(), Memory> {
    match constraint {
        Constraint::Atom(atom) => show_test(out, &atom.test),
        Constraint::AllOf(parts) => show_parts(out, parts.as_slice()),
        Constraint::AnyOf(parts) => show_parts(out, parts.as_slice()),
        _ => Ok(out.push(b'.')?),
    }
}

#[cycle(show)]
fn show_parts(out: &mut Vec<u8>, parts: &[Constraint]) -> Result<(), Memory> {
    out.push(b'(')?;
    for part in parts {
        show(out, part)?;
    }
    out.push(b')')?;
    Ok(())
}

fn show_test(out: &mut Vec<u8>, test: &Test) -> Result<(), Memory> {
    match test {
        Test::InSet(members) => show_set(out, members.as_slice()),
        _ => Ok(out.push(b'.')?),
    }
}

fn show_set(out: &mut Vec<u8>, members: &[Cell]) -> Result<(), Memory> {
    for member in members {
        match member {
            Cell::Text(_) => out.push(b't')?,
            _ => out.push(b'n')?,
        }
    }
    out.push(b';')?;
    Ok(())
}

/// Whether a profile wants these set files, and then has these constraints in short.
fn gives(
    alloc: Global,
    text: &str,
    files: &[(&str, Kind, &str)],
    short: &str,
) -> Result<bool, Fail> {
    let json = read(alloc, text.as_bytes())?;
    let mut draft = read_profile(alloc, Alphabet::Basic, json)?;
    for (i, file) in files.iter().enumerate() {
        let number = i as u64 + 1;
        if !is_wanted(alloc, &draft, number, *file)? {
            return Ok(false);
        }
        draft = unfinished(alloc, draft).ok_or("finished")?;
        if !is_wanted(alloc, &draft, number, *file)? || !fill_next(alloc, &mut draft)? {
            return Ok(false);
        }
    }
    if draft.next_wanted().is_some() {
        return Ok(false);
    }
    let profile = draft.finish(alloc).map_err(|_fault| "unfinished")?;
    let mut out = Vec::new(alloc);
    show_parts(&mut out, profile.constraints())?;
    Ok(out.as_slice() == short.as_bytes())
}

#[test]
fn set_files_are_wanted_in_the_order_of_the_text(rt: HostRuntime) -> Result<(), Fail> {
    let cases: [(&str, &[(&str, Kind, &str)], &str); 3] = [
        (r#"{"fields":[{"name":"i","type":"integer"}]}"#, &[], "()"),
        (
            concat!(
                r#"{"constraints":[{"field":"s","inSet":"first.csv"},"#,
                r#"{"anyOf":[{"field":"i","equalTo":1},{"inSet":"second.csv","field":"i"}]},"#,
                r#"{"field":"i","inSet":[1,2]}],"#,
                r#""fields":[{"name":"i","type":"integer"},{"name":"s","type":"string"}]}"#,
            ),
            &[
                (
                    "first.csv",
                    Kind::Text(Alphabet::Basic),
                    "#/constraints/0/inSet",
                ),
                ("second.csv", Kind::Integer, "#/constraints/1/anyOf/1/inSet"),
            ],
            "(t;(.n;)nn;)",
        ),
        (
            concat!(
                r#"{"rules":[{"rule":"few","constraints":[{"field":"i","is":"inSet","values":[1,2,3]}]},"#,
                r#"{"rule":"many","constraints":[{"is":"inSet","file":"names.csv","field":"s"}]}],"#,
                r#""fields":[{"name":"i","type":"integer"},{"name":"s","type":"string"}]}"#,
            ),
            &[(
                "names.csv",
                Kind::Text(Alphabet::Basic),
                "#/constraints/1/allOf/0/inSet",
            )],
            "((nnn;)(t;))",
        ),
    ];
    for (text, files, short) in cases {
        assert!(rt; gives(rt.alloc(), text, files, short)?, "{text}");
    }
    Ok(())
}

/// Whether a refusal is of the rule with this name, at this pointer.
fn is_refusal(alloc: Global, refusal: &Refusal, rule: &str, pointer: &str) -> Result<bool, Memory> {
    let want = Text::of(alloc, pointer)?;
    match &refusal.location {
        Location::Pointer(found) => {
            Ok(refusal.rule.name() == rule && found.codes() == want.codes())
        }
        Location::Byte(_) => Ok(false),
    }
}

/// Whether a profile is refused for the rule with this name, at this pointer.
fn is_refused(alloc: Global, text: &str, rule: &str, pointer: &str) -> Result<bool, Fail> {
    let json = read(alloc, text.as_bytes())?;
    match read_profile(alloc, Alphabet::Basic, json) {
        Err(SchemaFault::Refused(refusal)) => Ok(is_refusal(alloc, &refusal, rule, pointer)?),
        _ => Ok(false),
    }
}

#[test]
fn the_first_broken_rule_is_refused(rt: HostRuntime) -> Result<(), Fail> {
    let cases = [
        (r#"[{"rules":1,"constraints":[]}]"#, "S1", "#"),
        (
            concat!(
                r#"{"fields":[{"name":"i","type":"number"}],"#,
                r#""rules":[{"rule":"r","constraints":[{"field":"m","is":"gt","value":1}]}]}"#,
            ),
            "L4",
            "#/rules/0/constraints/0/is",
        ),
        (
            concat!(
                r#"{"constraints":[{"field":"m","equalTo":1}],"#,
                r#""fields":[{"name":"i","type":"number"}]}"#,
            ),
            "S4",
            "#/fields/0/type",
        ),
        (
            concat!(
                r#"{"fields":[{"name":"i","type":"integer"}],"#,
                r#""constraints":[{"field":"i","equalTo":2.5},{"field":"m","inSet":"m.csv"}]}"#,
            ),
            "S9",
            "#/constraints/1/field",
        ),
        (
            concat!(
                r#"{"fields":[{"name":"i","type":"integer"}],"#,
                r#""constraints":[{"anyOf":[]},{"not":{"field":"i","equalTo":2.5}}]}"#,
            ),
            "S12",
            "#/constraints/1/not/equalTo",
        ),
        (
            concat!(
                r#"{"fields":[{"name":"i","type":"integer"}],"#,
                r#""rules":[{"rule":"a","constraints":[{"field":"i","equalToField":"i"}]},"#,
                r#"{"rule":"b","constraints":[{"field":"i","is":"null"},{"not":{"anyOf":[]}}]}]}"#,
            ),
            "S17",
            "#/constraints/1/allOf/1/not/anyOf",
        ),
        (
            concat!(
                r#"{"constraints":[{"field":"i","equalToField":"j"},{"field":"j","equalToField":"k"},"#,
                r#"{"anyOf":[{"field":"k","equalToField":"i"},{"field":"i","lessThanField":"k"}]}],"#,
                r#""fields":[{"name":"i","type":"integer"},{"name":"j","type":"integer"},"#,
                r#"{"name":"k","type":"decimal"}]}"#,
            ),
            "S21",
            "#/constraints/2/anyOf/0/equalToField",
        ),
    ];
    for (text, rule, pointer) in cases {
        assert!(rt; is_refused(rt.alloc(), text, rule, pointer)?, "{text}");
    }
    Ok(())
}
