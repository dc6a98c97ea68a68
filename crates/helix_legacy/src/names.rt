//! The names of rules.

ghost use Rattle.std.specs.Prelude.{◌≡◌, ◌↔◌, List, Some, false, IfOk, IsSomeAnd, IsTrue, option_copied};
ghost use Rattle.helix_json.specs.declared.value.Json.TheViews as view;
ghost use Rattle.helix_json.specs.declared.value.Json.{Json, Str};
ghost use Rattle.helix_legacy.specs.Inner.Seen.{AreNamesOf, AddsNameIn};
ghost use Rattle.helix_legacy.specs.Broken.{BreaksName, IsFaultyName, name_in};
ghost use Rattle.helix_places.specs.Places.{Finds};

use helix_base::{Memory, Text};
use helix_json::Json;
use helix_places::{Place, Step, as_list, as_object, as_text, is_name_text, place_of, value_of};
use std::alloc::Global;
use std::collections::BTreeSet;

/// The name of a rule: its member `rule`.
pub fn name_in(rule: &Json) -> Option<&Json>
    ensures { option_copied result ≡ name_in rule.now }
{
    match as_object(rule) {
        Some(members) => value_of(members, "rule"),
        None => None,
    }
}

/// The place of the first name in `rules` that is faulty or repeats an earlier one.
pub fn name_fault(alloc: Global, rules: &Json) -> Result<Option<Place>, Memory>
    ensures { IfOk result (Finds rules.now (BreaksName rules.now)) }
{
    match as_list(rules) {
        Some(items) => names_fault(alloc, items),
        None => Ok(None),
    }
}

fn names_fault(alloc: Global, rules: &[Json]) -> Result<Option<Place>, Memory>
    ensures { let v = view.List rules.now in IfOk result (Finds v (BreaksName v)) }
{
    let mut seen = BTreeSet::new(alloc);
    for (i, rule) in rules.iter().enumerate() {
        if has_faulty_name(&mut seen, rule)? {
            let mut place = place_of(alloc, "rule")?;
            place.step_out(Step::Item(i))?;
            return Ok(Some(place));
        }
    }
    Ok(None)
}

/// Whether the name of a rule is no name, or is that of an earlier rule, which the set has. The set takes a new name.
fn has_faulty_name<'a>(seen: &mut BTreeSet<&'a [u32]>, rule: &'a Json) -> Result<bool, Memory>
    ensures faulty { IfOk result (λ faulty. (earlier : List Json) → AreNamesOf seen.old.keys earlier
        → IsTrue faulty ↔ IsSomeAnd (name_in rule.now) (IsFaultyName earlier)) }
    ensures taken { IfOk result (λ faulty. faulty ≡ false → AddsNameIn seen.old.keys seen.new.keys (name_in rule.now)) }
{
    match name_in(rule) {
        Some(name) => is_faulty_name(seen, name),
        None => Ok(false),
    }
}

fn is_faulty_name<'a>(seen: &mut BTreeSet<&'a [u32]>, name: &'a Json) -> Result<bool, Memory>
    ensures faulty { IfOk result (λ faulty. (earlier : List Json) → AreNamesOf seen.old.keys earlier
        → IsTrue faulty ↔ IsFaultyName earlier name.now) }
    ensures taken { IfOk result (λ faulty. faulty ≡ false → AddsNameIn seen.old.keys seen.new.keys (Some name.now)) }
{
    match as_text(name) {
        Some(text) => is_faulty_text(seen, text.codes()),
        None => Ok(true),
    }
}

fn is_faulty_text<'a>(seen: &mut BTreeSet<&'a [u32]>, text: &'a [u32]) -> Result<bool, Memory>
    ensures faulty { IfOk result (λ faulty. (earlier : List Json) → AreNamesOf seen.old.keys earlier
        → IsTrue faulty ↔ IsFaultyName earlier (Str text.now)) }
    ensures taken { IfOk result (λ faulty. faulty ≡ false
        → AddsNameIn seen.old.keys seen.new.keys (Some (Str text.now))) }
{
    if !is_name_text(text) {
        return Ok(true);
    }
    let added = seen.insert(text)?;
    Ok(!added)
}

/// Whether a rule has a name.
pub fn is_named(rule: &Json, name: &[u32]) -> bool
    ensures { IsTrue result ↔ (name_in rule.now ≡ Some (Str name.now)) }
{
    match name_in(rule) {
        Some(value) => is_text(value, name),
        None => false,
    }
}

fn is_text(json: &Json, text: &[u32]) -> bool
    ensures { IsTrue result ↔ (json.now ≡ Str text.now) }
{
    match as_text(json) {
        Some(own) => own.codes() == text,
        None => false,
    }
}
