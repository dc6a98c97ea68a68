//! Walks through a profile of one field.

ghost use Rattle.std.specs.Prelude.{◌≡◌, [], length, IfOk};

use crate::{Walk, laws};
use helix_base::{Memory, Quiet, Steps, Text};
use helix_profile::{Constraints, Field, Fields, Profile};
use helix_values::{CellRef, Kind, RowBuf};
use std::alloc::Global;
use std::test::Fail;

/// A profile of one nullable truth value, without constraints.
fn one_flag(alloc: Global) -> Result<Profile, Memory>
    ensures constraints { IfOk result (λ profile. profile.constraints ≡ []) }
    ensures fields { IfOk result (λ profile. length profile.fields ≡ 1) }
{
    let mut fields = Fields::new(alloc);
    let name = Text::of(alloc, "a")?;
    fields.push(Field {
        name,
        kind: Kind::Boolean,
        nullable: true,
    })?;
    Ok(Profile::new(fields, Constraints::new(alloc)))
}

#[test]
fn gives_the_rows_of_a_flag(rt: HostRuntime) -> Result<(), Fail> {
    let mut walk = Walk::open(rt.alloc(), &one_flag(rt.alloc())?)?;
    let mut steps = Steps::new(Quiet);
    let mut row = RowBuf::open(rt.alloc(), 1)?;
    assert!(rt; walk.advance(&mut row, &mut steps));
    assert_eq!(rt; row.slot(0).view(), CellRef::Bool(false));
    assert!(rt; walk.advance(&mut row, &mut steps));
    assert_eq!(rt; row.slot(0).view(), CellRef::Bool(true));
    assert!(rt; walk.advance(&mut row, &mut steps));
    assert_eq!(rt; row.slot(0).view(), CellRef::Null);
    assert!(rt; !walk.advance(&mut row, &mut steps));
    assert!(rt; walk.asked() > 0);
    Ok(())
}

#[test]
fn laws_of_walks() {
    laws::next_rows::<Profile>();
    laws::prefixes_are_joined::<Profile>();
    laws::good_rows_of_groups();
    laws::good_rows_in_parts();
    laws::sets_of_the_same_rows::<Profile, Profile>();
}
