ghost use Rattle.std.specs.Prelude.{◌≡◌, [], IfOk};

use crate::{Partitions, partitions};
use helix_base::{Memory, Text};
use helix_profile::{Atom, Constraint, Constraints, Field, Fields, Profile, Test};
use helix_values::Kind;
use std::alloc::Global;
use std::test::Fail;

/// A profile of one nullable truth value, without constraints.
fn one_flag(alloc: Global) -> Result<Profile, Memory>
    ensures { IfOk result (λ profile. profile.constraints ≡ []) }
{
    let mut fields = Fields::new(alloc);
    let name = Text::of(alloc, "a")?;
    fields.push(Field {
        name,
        kind: Kind::Boolean,
        nullable: true,
    })?;
    Ok(Profile::new(fields, Constraints::new(alloc)))
}

/// The same, with a constraint on it.
fn a_null_flag(alloc: Global) -> Result<Profile, Memory> {
    let mut profile = one_flag(alloc)?;
    let mut constraints = Constraints::new(alloc);
    constraints.push(Constraint::Atom(Atom {
        field: 0,
        test: Test::IsNull(true),
    }))?;
    profile.add(constraints)?;
    Ok(profile)
}

/// The groups of a profile, copied.
fn groups(alloc: Global, profile: &Profile) -> Result<Partitions, Memory> {
    partitions(alloc, profile)?.copy(alloc)
}

#[test]
fn a_field_alone(rt: HostRuntime) -> Result<(), Fail> {
    let groups = groups(rt.alloc(), &one_flag(rt.alloc())?)?;
    match groups.as_slice() {
        [group] => {
            assert_eq!(rt; group.fields.as_slice(), [0].as_slice());
            assert!(rt; group.constraints.as_slice().is_empty());
        }
        _ => assert!(rt; false, "one group"),
    }
    Ok(())
}

#[test]
fn a_field_with_a_constraint(rt: HostRuntime) -> Result<(), Fail> {
    let groups = groups(rt.alloc(), &a_null_flag(rt.alloc())?)?;
    match groups.as_slice() {
        [group] => {
            assert_eq!(rt; group.fields.as_slice(), [0].as_slice());
            assert_eq!(rt; group.constraints.as_slice(), [0].as_slice());
        }
        _ => assert!(rt; false, "one group"),
    }
    Ok(())
}
