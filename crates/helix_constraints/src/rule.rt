//! A rule on constraints.

ghost use Rattle.std.specs.Prelude.{◌≡◌, ◌⊎◌, [], List, IfOk};
ghost use Rattle.helix_json.specs.Values.{HasNoRepeatedKey};
ghost use Rattle.helix_json.specs.declared.value.Json.{Json as Value};
ghost use Rattle.helix_places.specs.Places.{Finds};
ghost use Rattle.helix_places.specs.declared.place.Step.{Step};
ghost use Rattle.helix_constraints.specs.Visited.{IsAlone};

use helix_base::Memory;
use helix_json::Json;
use helix_places::Place;
use std::alloc::Global;

/// A rule that is broken by each constraint on its own.
pub trait ConstraintRule {
    /// Where a constraint breaks the rule itself, constraints within it left aside.
    ghost breaks: { Self → Value → List Step → Type 0 };

    /// The first place where the constraint breaks the rule itself.
    fn fault(&self, alloc: Global, constraint: &Json) -> Result<Option<Place>, Memory>
        ensures { IfOk result (λ found. HasNoRepeatedKey constraint.now
            → Finds constraint.now (breaks self.now constraint.now) found) };

    /// It is the constraint itself, or there are none within it.
    ghost own_first: { (s : Self) (v : Value) (place : List Step) → breaks s v place
        → (place ≡ []) ⊎ IsAlone v };
}
