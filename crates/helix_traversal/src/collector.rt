//! What is collected of constraints.

ghost use Rattle.std.specs.Prelude.{◌≡◌, ◌++◌, List, OnOk};
ghost use Rattle.helix_json.specs.declared.value.Json.{Json as Value};
ghost use Rattle.helix_places.specs.declared.place.Step.{Step as PlaceStep};

use helix_base::Memory;
use helix_json::Json;
use helix_places::Step;

/// What collects something of each constraint: `found` is what it has, and `own` what one constraint at a place adds.
pub trait Collector {
    ghost Item: { Type 0 };

    ghost found: { Self → List Item };

    ghost own: { Self → List PlaceStep → Value → List Item };

    /// Adds what one constraint has itself, those within it left aside.
    fn visit(&mut self, path: &[Step], v: &Json) -> Result<(), Memory>
        ensures found { OnOk result (found self.new ≡ found self.old ++ own self.old path.now v.now) }
        ensures own { own self.new ≡ own self.old };
}
