//! The members of set files by their places.

ghost use Rattle.std.specs.Prelude.{◌≡◌, ◌↔◌, IfOk, IsTrue};
ghost use Rattle.helix_operands.specs.Values.{Reads};
ghost use Rattle.helix_readings.specs.Sets.{HasMembers};

use helix_base::{List, Memory};
use helix_places::{Place, Step};
use helix_values::Cells;
use std::alloc::Global;

/// The members of a set file, and the place of the operand of `inSet` that names it.
#[derive(Debug, Drop)]
pub struct SetMembers {
    pub place: Place,
    pub members: Cells,
}

/// The members of the set files of a profile.
pub type Sets = List<SetMembers>;

/// A copy of the members for a place.
pub fn members_at(
    alloc: Global,
    sets: &[SetMembers],
    place: &Place,
) -> Result<Option<Cells>, Memory>
    ensures { IfOk result (Reads (HasMembers sets.now place.now)) }
{
    for set in sets {
        if is_same_place(&set.place, place) {
            return Ok(Some(set.members.copy(alloc)?));
        }
    }
    Ok(None)
}

fn is_same_place(place: &Place, other: &Place) -> bool
    ensures { IsTrue result ↔ (place.now ≡ other.now) }
{
    are_same_steps(place.steps_inside_out(), other.steps_inside_out())
}

fn are_same_steps(steps: &[Step], others: &[Step]) -> bool
    ensures { IsTrue result ↔ (steps.now ≡ others.now) }
{
    if steps.len() != others.len() {
        return false;
    }
    for (i, step) in steps.iter().enumerate() {
        if !is_same_step(step, &others[i]) {
            return false;
        }
    }
    true
}

fn is_same_step(step: &Step, other: &Step) -> bool
    ensures { IsTrue result ↔ (step.now ≡ other.now) }
{
    match (step, other) {
        (Step::Member(key), Step::Member(next)) => key.codes() == next.codes(),
        (Step::Item(index), Step::Item(next)) => index == next,
        (Step::Member(_), Step::Item(_)) => false,
        (Step::Item(_), Step::Member(_)) => false,
    }
}
