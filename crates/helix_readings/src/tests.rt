use crate::{SetMembers, Sets, read_constraints};
use helix_base::{Alphabet, Memory, Text};
use helix_json::read;
use helix_places::{Place, Step};
use helix_profile::{Constraint, Field, Fields, Relation, Test};
use helix_values::{Cell, Cells, Kind};
use std::alloc::Global;
use std::test::Fail;

/// Three fields: `a` and `b` of integers, and `s` of texts.
fn three_fields(alloc: Global) -> Result<Fields, Memory> {
    let kinds = [
        ("a", Kind::Integer),
        ("b", Kind::Integer),
        ("s", Kind::Text(Alphabet::Basic)),
    ];
    let mut fields = Fields::new(alloc);
    for (name, kind) in kinds {
        fields.push(Field {
            name: Text::of(alloc, name)?,
            kind,
            nullable: false,
        })?;
    }
    Ok(fields)
}

/// The place of the second item of `anyOf` in the first constraint, under `inSet`.
fn place_of_file(alloc: Global) -> Result<Place, Memory> {
    let mut place = Place::top(alloc);
    place.step_out(Step::Member(Text::of(alloc, "inSet")?))?;
    place.step_out(Step::Item(1))?;
    place.step_out(Step::Member(Text::of(alloc, "anyOf")?))?;
    place.step_out(Step::Item(0))?;
    place.step_out(Step::Member(Text::of(alloc, "constraints")?))?;
    Ok(place)
}

/// One set file, of two members, and one after it for the same place.
fn two_sets(alloc: Global) -> Result<Sets, Memory> {
    let mut sets = Sets::new(alloc);
    for count in [2, 1] {
        let mut members = Cells::new(alloc);
        for _ in 0..count {
            members.push(Cell::Text(Text::of(alloc, "x")?))?;
        }
        sets.push(SetMembers {
            place: place_of_file(alloc)?,
            members,
        })?;
    }
    Ok(sets)
}

/// Appends a number below 10.
fn print_digit(out: &mut Vec<u8>, number: u32) -> Result<(), Memory> {
    let digits = b"0123456789";
    let index = number as usize;
    if index < digits.len() {
        out.push(digits[index])?;
    }
    Ok(())
}

fn print_test(out: &mut Vec<u8>, test: &Test) -> Result<(), Memory> {
    match test {
        Test::IsNull(wanted) => out.push(if *wanted { b'n' } else { b'N' })?,
        Test::InSet(members) => {
            let count = members.as_slice().len();
            out.push(b's')?;
            print_digit(out, if count < 10 { count as u32 } else { 0 })?;
        }
        Test::LongerThan(length) => {
            out.push(b'l')?;
            print_digit(out, *length)?;
        }
        _ => out.push(b't')?,
    }
    Ok(())
}

fn print_relation(out: &mut Vec<u8>, relation: &Relation) -> Result<(), Memory> {
    print_digit(out, relation.left)?;
    out.push(b'r')?;
    print_digit(out, relation.right)
}

/// Appends a constraint in short: `0t` a test of field 0, `0r1` a relation of two fields, `!` a negation, `&(..)` and
/// `|(..)` lists, `?` a condition with what follows it and, after `:`, what else.
#[cycle(print)]
fn print(out: &mut Vec<u8>, constraint: &Constraint) -> Result<(), Memory> {
    match constraint {
        Constraint::Atom(atom) => {
            print_digit(out, atom.field)?;
            print_test(out, &atom.test)
        }
        Constraint::Related(relation) => print_relation(out, relation),
        Constraint::Not(negated) => {
            out.push(b'!')?;
            print(out, negated.get())
        }
        Constraint::AllOf(parts) => {
            out.push(b'&')?;
            print_parts(out, parts.as_slice())
        }
        Constraint::AnyOf(parts) => {
            out.push(b'|')?;
            print_parts(out, parts.as_slice())
        }
        Constraint::If(condition, then, otherwise) => {
            out.push(b'?')?;
            print(out, condition.get())?;
            print(out, then.get())?;
            match otherwise {
                None => Ok(()),
                Some(other) => {
                    out.push(b':')?;
                    print(out, other.get())
                }
            }
        }
    }
}

#[cycle(print)]
fn print_parts(out: &mut Vec<u8>, parts: &[Constraint]) -> Result<(), Memory> {
    out.push(b'(')?;
    for part in parts {
        print(out, part)?;
    }
    out.push(b')')?;
    Ok(())
}

/// Whether the list of constraints gives these, in short; none where the short form is `-`.
fn gives(alloc: Global, text: &str, short: &str) -> Result<bool, Fail> {
    let json = read(alloc, text.as_bytes())?;
    let fields = three_fields(alloc)?;
    let fields = fields.as_slice();
    if fields.len() != 3 {
        return Ok(false);
    }
    let sets = two_sets(alloc)?;
    let mut out = Vec::new(alloc);
    match read_constraints(alloc, fields, &sets, &json)? {
        Some(constraints) => print_parts(&mut out, constraints.as_slice())?,
        None => out.push(b'-')?,
    }
    Ok(out.as_slice() == short.as_bytes())
}

#[test]
fn constraints_are_read(rt: HostRuntime) -> Result<(), Fail> {
    let cases = [
        (r#"{}"#, "()"),
        (r#"{"constraints":[]}"#, "()"),
        (r#"{"constraints":[{"field":"b","isNull":true}]}"#, "(1n)"),
        (
            r#"{"constraints":[{"longerThan":7,"field":"s"},{"field":"a","inSet":[1,2,3]}]}"#,
            "(2l70s3)",
        ),
        (
            r#"{"constraints":[{"field":"a","greaterThanField":"b","offset":5}]}"#,
            "(0r1)",
        ),
        (
            r#"{"constraints":[{"not":{"not":{"field":"a","isNull":false}}}]}"#,
            "(!!0N)",
        ),
        (
            r#"{"constraints":[{"anyOf":[{"field":"s","equalTo":"y"},{"field":"s","inSet":"file.csv"}]}]}"#,
            "(|(2t2s2))",
        ),
        (
            r#"{"constraints":[{"anyOf":[{"field":"s","inSet":"file.csv"}]}]}"#,
            "-",
        ),
        (
            r#"{"constraints":[{"then":{"field":"a","isNull":true},"if":{"field":"b","isNull":true}}]}"#,
            "(?1n0n)",
        ),
        (
            r#"{"constraints":[{"else":{"field":"s","isNull":true},"if":{"field":"b","isNull":true},"then":{"allOf":[{"field":"a","isNull":true}]}}]}"#,
            "(?1n&(0n):2n)",
        ),
        (r#"{"constraints":[{"allOf":[]}]}"#, "-"),
        (r#"{"constraints":[{"allOf":{}}]}"#, "-"),
        (r#"{"constraints":[{"field":"c","isNull":true}]}"#, "-"),
        (r#"{"constraints":[{"field":"a","isNull":1}]}"#, "-"),
        (r#"{"constraints":[{"field":"a","isNull":true},[]]}"#, "-"),
    ];
    for (text, short) in cases {
        assert!(rt; gives(rt.alloc(), text, short)?, "{text}");
    }
    Ok(())
}
