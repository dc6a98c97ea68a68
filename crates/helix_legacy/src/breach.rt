//! The first broken rule of the older form.

ghost use Rattle.std.specs.Prelude.{◌≡◌, ◌∷◌, Some, false, IfOk, IsTrue, codes};
ghost use Rattle.helix_json.specs.Values.{HasNoRepeatedKey};
ghost use Rattle.helix_json.specs.declared.value.Json.TheViews as view;
ghost use Rattle.helix_legacy.specs.Broken.{BreaksATest, is_older};
ghost use Rattle.helix_places.specs.Members.{has_key, value_of};
ghost use Rattle.helix_legacy.specs.Inner.Parts.{InConstraints, IsBreach};
ghost use Rattle.helix_places.specs.Places.{Finds, InItem};

use crate::fault::LegacyRule;
use crate::names::name_fault;
use crate::shape::form_fault;
use crate::visit::in_constraints;
use helix_base::Memory;
use helix_json::{Json, Member};
use helix_places::{Place, Step, as_list, as_object, has_key, place_of, value_of, word_text};
use std::alloc::Global;

/// A broken rule with a place.
#[derive(Debug, Drop)]
pub struct Breach {
    pub rule: LegacyRule,
    pub place: Place,
}

/// The first broken rule of an object with the member `rules`, and its first place.
pub fn first_breach(alloc: Global, members: &[Member]) -> Result<Option<Breach>, Memory>
    requires older { IsTrue (is_older (view.Object members.now)) }
    requires keys { HasNoRepeatedKey (view.Object members.now) }
    ensures { IfOk result (IsBreach (view.Object members.now)) }
{
    if has_key(members, "constraints") {
        return Ok(Some(Breach {
            rule: LegacyRule::L1,
            place: place_of(alloc, "constraints")?,
        }));
    }
    match value_of(members, "rules") {
        Some(rules) => breach_in_rules(alloc, members, rules),
        None => unreachable!(),
    }
}

/// The first of L2 to L4 that is broken.
fn breach_in_rules(
    alloc: Global,
    members: &[Member],
    rules: &Json,
) -> Result<Option<Breach>, Memory>
    requires keys { HasNoRepeatedKey (view.Object members.now) }
    requires rules { value_of (codes "rules") members.now ≡ Some rules.now }
    requires alone { has_key (codes "constraints") members.now ≡ false }
    ensures { IfOk result (IsBreach (view.Object members.now)) }
{
    if let Some(place) = form_fault(alloc, rules)? {
        return Ok(Some(breach_at(alloc, LegacyRule::L2, place)?));
    }
    if let Some(place) = name_fault(alloc, rules)? {
        return Ok(Some(breach_at(alloc, LegacyRule::L3, place)?));
    }
    if let Some(place) = rules_fault(alloc, rules)? {
        return Ok(Some(breach_at(alloc, LegacyRule::L4, place)?));
    }
    Ok(None)
}

/// A rule that is broken at a place in `rules`.
fn breach_at(alloc: Global, rule: LegacyRule, place: Place) -> Result<Breach, Memory>
    ensures rule { IfOk result (λ breach. breach.rule ≡ rule) }
    ensures place { IfOk result (λ breach. breach.place ≡ Step.Member (codes "rules") ∷ place) }
{
    let mut outer = place;
    outer.step_out(Step::Member(word_text(alloc, "rules")?))?;
    Ok(Breach { rule, place: outer })
}

/// The place of the first fault of a test in `rules`.
fn rules_fault(alloc: Global, rules: &Json) -> Result<Option<Place>, Memory>
    ensures { IfOk result (λ found. HasNoRepeatedKey rules.now → Finds rules.now (BreaksATest rules.now) found) }
{
    match as_list(rules) {
        Some(items) => items_fault(alloc, items),
        None => Ok(None),
    }
}

fn items_fault(alloc: Global, items: &[Json]) -> Result<Option<Place>, Memory>
    ensures { let v = view.List items.now in
        IfOk result (λ found. HasNoRepeatedKey v → Finds v (InItem InConstraints v) found) }
{
    for (i, item) in items.iter().enumerate() {
        if let Some(mut place) = rule_fault(alloc, item)? {
            place.step_out(Step::Item(i))?;
            return Ok(Some(place));
        }
    }
    Ok(None)
}

/// The place of the first fault of a test in a rule.
fn rule_fault(alloc: Global, rule: &Json) -> Result<Option<Place>, Memory>
    ensures { IfOk result (λ found. HasNoRepeatedKey rule.now → Finds rule.now (InConstraints rule.now) found) }
{
    match as_object(rule) {
        Some(members) => members_fault(alloc, members),
        None => Ok(None),
    }
}

fn members_fault(alloc: Global, members: &[Member]) -> Result<Option<Place>, Memory>
    ensures { let v = view.Object members.now in
        IfOk result (λ found. HasNoRepeatedKey v → Finds v (InConstraints v) found) }
{
    match value_of(members, "constraints") {
        Some(constraints) => {
            if let Some(mut place) = in_constraints(alloc, constraints)? {
                place.step_out(Step::Member(word_text(alloc, "constraints")?))?;
                return Ok(Some(place));
            }
            Ok(None)
        }
        None => Ok(None),
    }
}
