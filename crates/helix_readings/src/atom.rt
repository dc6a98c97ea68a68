//! The atomic constraint that the members of an object give.

ghost use Rattle.std.specs.Prelude.{◌≡◌, ◌^◌, ◌<◌, length, IfOk};
ghost use Rattle.helix_keywords.specs.Keywords.{word_of};
ghost use Rattle.helix_operands.specs.Tests.{Makes};
ghost use Rattle.helix_operands.specs.Values.{Reads};
ghost use Rattle.helix_profile.specs.declared.test.Test.TheVariants as tests;
ghost use Rattle.helix_readings.specs.Given.{GivesAtom, GivesTestAt, at_key};
ghost use Rattle.helix_readings.specs.Sets.{HasMembers};

use crate::path::place_at_key;
use crate::sets::{SetMembers, members_at};
use helix_base::Memory;
use helix_json::{Json, Member};
use helix_keywords::Keyword;
use helix_operands::{names_set_file, read_test};
use helix_places::{Place, value_of};
use helix_profile::{Atom, Field, Test};
use helix_references::field_of;
use helix_values::Kind;
use std::alloc::Global;

/// The test of a field that the members of an object at a place give with a keyword.
pub fn read_atom(
    alloc: Global,
    fields: &[Field],
    sets: &[SetMembers],
    place: &Place,
    members: &[Member],
    keyword: Keyword,
) -> Result<Option<Atom>, Memory>
    requires { length fields.now < 2 ^ 32 }
    ensures { IfOk result (Reads (GivesAtom fields.now sets.now place.now members.now keyword)) }
{
    let Some(field) = field_of(fields, members) else {
        return Ok(None);
    };
    let Some(operand) = value_of(members, keyword.word()) else {
        return Ok(None);
    };
    match test_at(alloc, sets, place, fields[field].kind, keyword, operand)? {
        Some(test) => Ok(Some(Atom {
            field: field as u32,
            test,
        })),
        None => Ok(None),
    }
}

/// The test that the operand of a keyword gives in an object at a place.
fn test_at(
    alloc: Global,
    sets: &[SetMembers],
    place: &Place,
    kind: Kind,
    keyword: Keyword,
    operand: &Json,
) -> Result<Option<Test>, Memory>
    ensures { IfOk result
        (Reads (GivesTestAt sets.now (at_key place.now (word_of keyword)) kind keyword operand.now)) }
{
    if names_set_file(keyword, operand) {
        set_test(alloc, sets, &place_at_key(alloc, place, keyword.word())?)
    } else {
        read_test(alloc, kind, keyword, operand)
    }
}

/// The test by the set for a place.
fn set_test(alloc: Global, sets: &[SetMembers], place: &Place) -> Result<Option<Test>, Memory>
    ensures { IfOk result (Reads (Makes (HasMembers sets.now place.now) tests.InSet)) }
{
    match members_at(alloc, sets, place)? {
        Some(members) => Ok(Some(Test::InSet(members))),
        None => Ok(None),
    }
}
