ghost use Rattle.std.specs.Prelude.{◌≡◌, [], IfOk};

use crate::{ViolateFault, violate};
use helix_base::{Memory, Text};
use helix_profile::{Atom, Constraint, Constraints, Field, Fields, Profile, Test, is_good};
use helix_values::{Cell, Kind};
use std::alloc::Global;
use std::test::Fail;

/// A profile of one nullable truth value, without constraints.
fn one_flag(alloc: Global) -> Result<Profile, Memory>
    ensures { IfOk result (λ profile. profile.constraints ≡ []) }
{
    let mut fields = Fields::new(alloc);
    let name = Text::of(alloc, "a")?;
    fields.push(Field {
        name,
        kind: Kind::Boolean,
        nullable: true,
    })?;
    Ok(Profile::new(fields, Constraints::new(alloc)))
}

/// The same, with the constraint that it is null.
fn null_flag(alloc: Global) -> Result<Profile, Memory> {
    let mut profile = one_flag(alloc)?;
    let mut constraints = Constraints::new(alloc);
    constraints.push(Constraint::Atom(Atom {
        field: 0,
        test: Test::IsNull(true),
    }))?;
    profile.add(constraints)?;
    Ok(profile)
}

/// Which of false, true and null are good.
fn good_flags(profile: &Profile) -> [bool; 3] {
    [
        is_good(profile, &[Cell::Bool(false)]),
        is_good(profile, &[Cell::Bool(true)]),
        is_good(profile, &[Cell::Null]),
    ]
}

#[test]
fn a_constraint_is_negated_and_back(rt: HostRuntime) -> Result<(), Fail> {
    let mut profile = null_flag(rt.alloc())?;
    assert_eq!(rt; good_flags(&profile), [false, false, true]);
    assert_eq!(rt; violate(rt.alloc(), &mut profile, 1), Ok(()));
    assert_eq!(rt; good_flags(&profile), [true, true, false]);
    assert_eq!(rt; violate(rt.alloc(), &mut profile, 1), Ok(()));
    assert_eq!(rt; good_flags(&profile), [false, false, true]);
    Ok(())
}

#[test]
fn other_numbers_are_refused(rt: HostRuntime) -> Result<(), Fail> {
    let mut profile = null_flag(rt.alloc())?;
    for k in [0, 2, usize::MAX] {
        let refused = Err(ViolateFault::NoSuchConstraint { count: 1 });
        assert_eq!(rt; violate(rt.alloc(), &mut profile, k), refused, "{k}");
    }
    assert_eq!(rt; good_flags(&profile), [false, false, true]);
    Ok(())
}
