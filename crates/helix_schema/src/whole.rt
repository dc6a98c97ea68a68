//! The profile that a value gives which breaks no rule.

ghost use Rattle.std.specs.Prelude.{◌≡◌, IfOk};
ghost use Rattle.helix_fields.specs.Fields.{fields_of};
ghost use Rattle.helix_json.specs.Values.{HasNoRepeatedKey};
ghost use Rattle.helix_readings.specs.Whole.{GivesConstraints};
ghost use Rattle.helix_validity.specs.Mentions.{AreFilled};
ghost use Rattle.helix_validity.specs.Unbroken.{IsUnbrokenProfile};

use helix_base::{Alphabet, Memory};
use helix_fields::read_fields;
use helix_json::Json;
use helix_profile::Profile;
use helix_readings::{Sets, read_constraints};
use helix_validity::laws::{constraints_are_given, fields_are_valid, profile_is_valid};
use std::alloc::Global;

/// The profile of a value in today's form that breaks no rule, with the members of all set files that it mentions.
pub fn profile_of(
    alloc: Global,
    alphabet: Alphabet,
    sets: &Sets,
    v: &Json,
) -> Result<Profile, Memory>
    requires keys { HasNoRepeatedKey v.now }
    requires unbroken { IsUnbrokenProfile (fields_of alphabet v.now) v.now }
    requires filled { AreFilled (fields_of alphabet v.now) sets.now v.now }
    ensures fields { IfOk result (λ profile. profile.fields ≡ fields_of alphabet v.now) }
    ensures constraints { IfOk result (λ profile.
        GivesConstraints (fields_of alphabet v.now) sets.now v.now profile.constraints) }
{
    constraints_are_given();
    fields_are_valid();
    profile_is_valid();
    let fields = read_fields(alloc, alphabet, v)?;
    match read_constraints(alloc, fields.as_slice(), sets, v)? {
        Some(constraints) => Ok(Profile::new(fields, constraints)),
        None => unreachable!(),
    }
}
