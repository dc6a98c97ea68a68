//! Places in a JSON value.

ghost use Rattle.std.specs.Prelude.{◌≡◌, [], ◌∷◌, IfOk};

use crate::keys::word_text;
use helix_base::{Memory, Text};
use std::alloc::Global;
use std::marker::Model;

/// A step from a value to one of its parts.
#[derive(Debug, Drop)]
pub enum Step {
    /// To the value of the member with this key.
    Member(Text),
    /// To the item with this index, from 0.
    Item(usize),
}

/// The way from a value to a part of it, as steps from the outside in. The value itself is the way without a step.
#[derive(Debug, Drop)]
pub struct Place {
    // From the inside out, so that a step to the outside is pushed.
    inner_first: Vec<Step>,
}

impl Model for Place {
    ghost use Rattle.std.specs.Prelude.{List, reverse};
    ghost use Rattle.helix_places.specs.declared.place.Step.{Step};

    ghost Value = { List Step };

    ghost view = { λ place. reverse place.inner_first.items };
}

impl Place {
    ghost use Rattle.std.specs.Prelude.{◌≡◌, [], ◌∷◌, OnErr, OnOk, reverse};

    /// The place of the value itself.
    pub fn top(alloc: Global) -> Place
        ensures { result ≡ [] }
    {
        Place {
            inner_first: Vec::new(alloc),
        }
    }

    /// Makes a place in a part of a value one in the value: the step is the way to the part. On `Err`, it is unchanged.
    pub fn step_out(&mut self, step: Step) -> Result<(), Memory>
        ensures ok { OnOk result (self.new ≡ step ∷ self.old) }
        ensures err { OnErr result (self.new ≡ self.old) }
    {
        self.inner_first.push(step)?;
        Ok(())
    }

    /// The steps, from the inside out.
    pub fn steps_inside_out(&self) -> &[Step]
        ensures { reverse result.now ≡ self.now }
    {
        self.inner_first.as_slice()
    }
}

/// The place of the member with a key.
pub fn place_of(alloc: Global, key: &str) -> Result<Place, Memory>
    ensures { IfOk result (λ place. place ≡ Step.Member key.now ∷ []) }
{
    let mut place = Place::top(alloc);
    place.step_out(Step::Member(word_text(alloc, key)?))?;
    Ok(place)
}
