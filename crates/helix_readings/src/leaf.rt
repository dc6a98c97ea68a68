//! Constraints that have no others within them.

ghost use Rattle.std.specs.Prelude.{◌≡◌, ◌^◌, ◌<◌, length, IfOk};
ghost use Rattle.helix_operands.specs.Values.{Reads};
ghost use Rattle.helix_readings.specs.Given.{GivesAtom, GivesAtomic, GivesRelated};
ghost use Rattle.helix_references.specs.Relations.{GivesRelation};

use crate::atom::read_atom;
use crate::sets::SetMembers;
use helix_base::Memory;
use helix_json::Member;
use helix_keywords::{FieldKeyword, Keyword};
use helix_places::Place;
use helix_profile::{Constraint, Field};
use helix_references::read_relation;
use std::alloc::Global;

/// The atomic constraint that the members of an object at a place give.
pub fn atomic(
    alloc: Global,
    fields: &[Field],
    sets: &[SetMembers],
    place: &Place,
    members: &[Member],
    keyword: Keyword,
) -> Result<Option<Constraint>, Memory>
    requires { length fields.now < 2 ^ 32 }
    ensures { IfOk result (Reads (GivesAtomic fields.now sets.now place.now members.now keyword)) }
{
    match read_atom(alloc, fields, sets, place, members, keyword)? {
        Some(atom) => Ok(Some(Constraint::Atom(atom))),
        None => Ok(None),
    }
}

/// The relation that the members of an object give.
pub fn related(fields: &[Field], members: &[Member], keyword: FieldKeyword) -> Option<Constraint>
    requires { length fields.now < 2 ^ 32 }
    ensures { Reads (GivesRelated fields.now members.now keyword) result }
{
    match read_relation(fields, members, keyword) {
        Some(relation) => Some(Constraint::Related(relation)),
        None => None,
    }
}
