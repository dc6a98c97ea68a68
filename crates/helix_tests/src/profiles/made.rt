ghost use Rattle.std.specs.Prelude.{◌≡◌, ◌<◌, [], ◌∷◌, length, true, false, IfOk};

use crate::profiles::build::{Value, row};
use helix_base::{Memory, Text};
use helix_profile::{Atom, Constraint, Constraints, Field, Fields, Profile, Test, is_good};
use helix_values::Kind;
use std::alloc::Global;
use std::test::Fail;

/// A profile of one nullable boolean field, without constraints.
fn one_flag(alloc: Global) -> Result<Profile, Memory>
    ensures { IfOk result (λ profile. profile.constraints ≡ []) }
{
    let mut fields = Fields::new(alloc);
    let name = Text::of(alloc, "a")?;
    fields.push(Field {
        name,
        kind: Kind::Boolean,
        nullable: true,
    })?;
    Ok(Profile::new(fields, Constraints::new(alloc)))
}

#[test]
fn a_made_profile_tells_good_rows(rt: HostRuntime) -> Result<(), Fail> {
    let profile = one_flag(rt.alloc())?;
    assert_eq!(rt; profile.fields().len(), 1);
    assert!(rt; profile.constraints().is_empty());
    // A cell is missing, the flag is true, a cell is too many, the flag is null.
    let cases: [(&[Value<'_>], bool); 4] = [
        (&[], false),
        (&[Value::Flag(true)], true),
        (&[Value::Flag(true), Value::Null], false),
        (&[Value::Null], true),
    ];
    for (values, want) in cases {
        let row = row(rt.alloc(), values)?;
        assert_eq!(rt;
            is_good(&profile, row.as_slice()),
            want,
            "{} cells",
            values.len()
        );
    }
    Ok(())
}

/// Whether the field is null.
fn null_test(wanted: bool) -> Constraint {
    Constraint::Atom(Atom {
        field: 0,
        test: Test::IsNull(wanted),
    })
}

/// Which of nulls a profile of such tests wants, in their order.
fn wanted(constraints: &[Constraint], at: usize) -> Option<bool> {
    match constraints.get(at) {
        Some(
            Constraint::Atom(
                Atom {
                    test: Test::IsNull(wanted),
                    ..
                },
            ),
        ) => Some(*wanted),
        _ => None,
    }
}

/// The profile with the constraints that the field is null, and that it isn't.
fn two_tests(alloc: Global) -> Result<Profile, Memory>
    ensures { IfOk result (λ profile. profile.constraints
        ≡ Constraint.Atom (record { field = 0; test = Test.IsNull true })
        ∷ Constraint.Atom (record { field = 0; test = Test.IsNull false }) ∷ []) }
{
    let mut profile = one_flag(alloc)?;
    let mut more = Constraints::new(alloc);
    more.push(Constraint::Atom(Atom {
        field: 0,
        test: Test::IsNull(true),
    }))?;
    more.push(Constraint::Atom(Atom {
        field: 0,
        test: Test::IsNull(false),
    }))?;
    profile.add(more)?;
    Ok(profile)
}

#[test]
fn constraints_are_added_kept_and_replaced(rt: HostRuntime) -> Result<(), Fail> {
    let mut profile = two_tests(rt.alloc())?;
    assert_eq!(rt; profile.constraints().len(), 2);
    assert_eq!(rt; wanted(profile.constraints(), 0), Some(true));
    let kept = profile.keep(&[2])?;
    assert_eq!(rt; kept.constraints().len(), 1);
    assert_eq!(rt; wanted(kept.constraints(), 0), Some(false));
    assert_eq!(rt; kept.fields().len(), 1);
    let with = Constraint::Atom(Atom {
        field: 0,
        test: Test::IsNull(false),
    });
    match profile.replace_constraint(1, with) {
        Ok(old) => assert_eq!(rt; wanted(&[old], 0), Some(true)),
        Err(_) => assert!(rt; false, "there is a first constraint"),
    }
    assert_eq!(rt; wanted(profile.constraints(), 0), Some(false));
    Ok(())
}

/// What is said where no constraint has the number.
fn refused(profile: &mut Profile, k: usize) -> Option<(u32, Option<bool>)>
    requires { length profile.old.constraints < k }
{
    match profile.replace_constraint(k, null_test(true)) {
        Ok(_) => None,
        Err(none) => Some((none.count, wanted(&[none.given], 0))),
    }
}

#[test]
fn other_numbers_are_refused(rt: HostRuntime) -> Result<(), Fail> {
    let mut profile = two_tests(rt.alloc())?;
    assert_eq!(rt; refused(&mut profile, 3), Some((2, Some(true))));
    assert!(rt; profile.replace_constraint(0, null_test(true)).is_err());
    Ok(())
}
