//! Profiles of one truth value, which may be null.

ghost use Rattle.std.specs.Prelude.{◌≡◌, [], IfOk};

use crate::region_list::regions;
use helix_base::{Memory, Text};
use helix_partition::partitions;
use helix_profile::{Atom, Constraint, Constraints, Field, Fields, Profile, Test};
use helix_values::Kind;
use std::alloc::Global;

/// Without constraints.
pub fn one_flag(alloc: Global) -> Result<Profile, Memory>
    ensures { IfOk result (λ profile. profile.constraints ≡ []) }
{
    let mut fields = Fields::new(alloc);
    let name = Text::of(alloc, "a")?;
    fields.push(Field {
        name,
        kind: Kind::Boolean,
        nullable: true,
    })?;
    Ok(Profile::new(fields, Constraints::new(alloc)))
}

/// With a constraint on it.
pub fn a_null_flag(alloc: Global) -> Result<Profile, Memory> {
    let mut profile = one_flag(alloc)?;
    let mut constraints = Constraints::new(alloc);
    constraints.push(Constraint::Atom(Atom {
        field: 0,
        test: Test::IsNull(true),
    }))?;
    profile.add(constraints)?;
    Ok(profile)
}

/// How many regions the first group of a profile has, if there is one.
pub fn first_regions(alloc: Global, profile: &Profile) -> Result<Option<usize>, Memory> {
    match partitions(alloc, profile)?.as_slice() {
        [] => Ok(None),
        [group, ..] => Ok(Some(regions(alloc, profile, group)?.len())),
    }
}
