//! The constraints of a profile.

ghost use Rattle.std.specs.Prelude.{◌≡◌, ◌^◌, ◌<◌, length, IfOk};
ghost use Rattle.helix_operands.specs.Values.{Reads};
ghost use Rattle.helix_readings.specs.Given.{AreGiven, GivesConstraint};
ghost use Rattle.helix_readings.specs.Whole.{GivesConstraints};

use crate::path::place_at_index;
use crate::reading::read_constraint;
use crate::sets::{SetMembers, Sets};
use helix_base::Memory;
use helix_fields::constraints_in;
use helix_json::Json;
use helix_places::{Place, place_of};
use helix_profile::{Constraints, Field};
use std::alloc::Global;

/// The constraints that a profile gives, one for each item of `constraints`, and None where some item gives none.
pub fn read_constraints(
    alloc: Global,
    fields: &[Field],
    sets: &Sets,
    v: &Json,
) -> Result<Option<Constraints>, Memory>
    requires { length fields.now < 2 ^ 32 }
    ensures { IfOk result (Reads (GivesConstraints fields.now sets.now v.now)) }
{
    let place = place_of(alloc, "constraints")?;
    read_all(alloc, fields, sets.as_slice(), &place, constraints_in(v))
}

fn read_all(
    alloc: Global,
    fields: &[Field],
    sets: &[SetMembers],
    place: &Place,
    items: &[Json],
) -> Result<Option<Constraints>, Memory>
    requires { length fields.now < 2 ^ 32 }
    ensures { IfOk result (Reads (AreGiven fields.now sets.now place.now 0 items.now)) }
{
    let mut all = Constraints::new(alloc);
    for (i, item) in items.iter().enumerate() {
        let inner = place_at_index(alloc, place, i)?;
        match read_constraint(alloc, fields, sets, &inner, item)? {
            Some(constraint) => all.push(constraint)?,
            None => return Ok(None),
        }
    }
    Ok(Some(all))
}
