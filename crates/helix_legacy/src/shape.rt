//! The form of `rules` and of each rule.

ghost use Rattle.std.specs.Prelude.{◌≡◌, IfOk};
ghost use Rattle.helix_json.specs.Values.{HasNoRepeatedKey};
ghost use Rattle.helix_json.specs.declared.value.Json.TheViews as view;
ghost use Rattle.helix_legacy.specs.Broken.{BreaksForm, BreaksRuleForm};
ghost use Rattle.helix_places.specs.Places.{Finds, InItem};

use helix_base::Memory;
use helix_json::{Json, Member};
use helix_places::{Place, Step, are_two_keys, as_list, as_object, has_list, place_of};
use std::alloc::Global;

/// The first place in `rules` whose form is broken.
pub fn form_fault(alloc: Global, rules: &Json) -> Result<Option<Place>, Memory>
    ensures { IfOk result (λ found. HasNoRepeatedKey rules.now → Finds rules.now (BreaksForm rules.now) found) }
{
    match as_list(rules) {
        Some(items) => items_fault(alloc, items),
        None => Ok(Some(Place::top(alloc))),
    }
}

fn items_fault(alloc: Global, items: &[Json]) -> Result<Option<Place>, Memory>
    ensures { let v = view.List items.now in
        IfOk result (λ found. HasNoRepeatedKey v → Finds v (InItem BreaksRuleForm v) found) }
{
    for (i, item) in items.iter().enumerate() {
        if let Some(mut place) = rule_fault(alloc, item)? {
            place.step_out(Step::Item(i))?;
            return Ok(Some(place));
        }
    }
    Ok(None)
}

/// The first place in a rule whose form is broken.
fn rule_fault(alloc: Global, rule: &Json) -> Result<Option<Place>, Memory>
    ensures { IfOk result (λ found. HasNoRepeatedKey rule.now → Finds rule.now (BreaksRuleForm rule.now) found) }
{
    match as_object(rule) {
        Some(members) => members_fault(alloc, members),
        None => Ok(Some(Place::top(alloc))),
    }
}

fn members_fault(alloc: Global, members: &[Member]) -> Result<Option<Place>, Memory>
    ensures { let v = view.Object members.now in IfOk result (Finds v (BreaksRuleForm v)) }
{
    if !are_two_keys(members, "rule", "constraints") {
        return Ok(Some(Place::top(alloc)));
    }
    if has_list(members, "constraints") {
        return Ok(None);
    }
    Ok(Some(place_of(alloc, "constraints")?))
}
