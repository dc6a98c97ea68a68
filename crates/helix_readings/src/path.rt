//! Places of parts.

ghost use Rattle.std.specs.Prelude.{◌≡◌, [], ◌∷◌, ◌++◌, IfOk};
ghost use Rattle.helix_readings.specs.Given.{at_index, at_key};

use helix_base::Memory;
use helix_places::{Place, Step, word_text};
use std::alloc::Global;

/// The place of the member with a key in a value at a place.
pub fn place_at_key(alloc: Global, place: &Place, key: &str) -> Result<Place, Memory>
    ensures { IfOk result (λ inner. inner ≡ at_key place.now key.now) }
{
    place_of_part(alloc, place, Step::Member(word_text(alloc, key)?))
}

/// The place of the item with an index in a value at a place.
pub fn place_at_index(alloc: Global, place: &Place, index: usize) -> Result<Place, Memory>
    ensures { IfOk result (λ inner. inner ≡ at_index place.now index) }
{
    place_of_part(alloc, place, Step::Item(index))
}

fn place_of_part(alloc: Global, place: &Place, last: Step) -> Result<Place, Memory>
    ensures { IfOk result (λ inner. inner ≡ place.now ++ last ∷ []) }
{
    let mut inner = Place::top(alloc);
    inner.step_out(last)?;
    for step in place.steps_inside_out() {
        inner.step_out(copy_of(alloc, step)?)?;
    }
    Ok(inner)
}

fn copy_of(alloc: Global, step: &Step) -> Result<Step, Memory>
    ensures { IfOk result (λ copy. copy ≡ step.now) }
{
    match step {
        Step::Member(key) => Ok(Step::Member(key.copy(alloc)?)),
        Step::Item(index) => Ok(Step::Item(*index)),
    }
}
