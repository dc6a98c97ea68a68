//! The first of some rules that is broken.

ghost use Rattle.std.specs.Prelude.{IfOk};
ghost use Rattle.helix_fields.specs.Fields.{fields_of};
ghost use Rattle.helix_json.specs.Values.{HasNoRepeatedKey};
ghost use Rattle.helix_rules.specs.Breaches.{FindsBreach};

use crate::fault::fault_of;
use crate::rule::Rule;
use helix_base::{Alphabet, Memory};
use helix_fields::read_fields;
use helix_json::Json;
use helix_places::Place;
use helix_profile::Field;
use std::alloc::Global;

/// A broken rule, and the first place in the text where it is broken.
#[derive(Debug, Drop)]
pub struct Breach {
    pub rule: Rule,
    pub place: Place,
}

/// The rules S2 to S21 in the order in which they are tried.
pub const PROFILE_RULES: [Rule; 20] = [
    Rule::S2,
    Rule::S3,
    Rule::S4,
    Rule::S5,
    Rule::S6,
    Rule::S7,
    Rule::S8,
    Rule::S9,
    Rule::S10,
    Rule::S11,
    Rule::S12,
    Rule::S13,
    Rule::S14,
    Rule::S15,
    Rule::S16,
    Rule::S17,
    Rule::S18,
    Rule::S19,
    Rule::S20,
    Rule::S21,
];

/// The first of the rules that a value breaks, in their order, with the first place in the text where it does. Of S1 to
/// S21 only, since the other rules are broken nowhere here.
pub fn first_breach(
    alloc: Global,
    alphabet: Alphabet,
    rules: &[Rule],
    v: &Json,
) -> Result<Option<Breach>, Memory>
    ensures { IfOk result (λ found. HasNoRepeatedKey v.now
        → FindsBreach (fields_of alphabet v.now) rules.now v.now found) }
{
    let fields = read_fields(alloc, alphabet, v)?;
    breach_in(alloc, fields.as_slice(), rules, v)
}

/// The same for a value with these declared fields.
fn breach_in(
    alloc: Global,
    fields: &[Field],
    rules: &[Rule],
    v: &Json,
) -> Result<Option<Breach>, Memory>
    ensures { IfOk result (λ found. HasNoRepeatedKey v.now → FindsBreach fields.now rules.now v.now found) }
{
    for rule in rules {
        if let Some(place) = fault_of(alloc, *rule, fields, v)? {
            return Ok(Some(Breach { rule: *rule, place }));
        }
    }
    Ok(None)
}
