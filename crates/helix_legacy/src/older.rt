//! The older form of profiles: whether a value has it, its form today, and its rules by their names.

ghost use Rattle.std.specs.Prelude.{◌≡◌, ◌≢◌, ◌-◌, ◌^◌, ◌<◌, ◌≤◌, ℕ, Some, length, IfErr, IfNone, IfOk, IfSome, IsTrue, OnOk, codes, option_copied};
ghost use Rattle.helix_json.specs.Values.{HasNoRepeatedKey, HasNumbers, nesting};
ghost use Rattle.helix_json.specs.declared.value.Json.{Str};
ghost use Rattle.helix_legacy.specs.Broken.{IsUnbroken, is_older, name_at, rules_of};
ghost use Rattle.helix_places.specs.Members.{items_of, members_of, value_of};
ghost use Rattle.helix_legacy.specs.Refusal.{Refuses};
ghost use Rattle.helix_legacy.specs.Today.{today_of};

use crate::breach::first_breach;
use crate::fault::LegacyFault;
use crate::names::is_named;
use crate::whole::whole_today;
use helix_base::Text;
use helix_json::Json;
use helix_places::{as_list, as_object, has_key, pointer_of, value_of};
use std::alloc::Global;

/// Whether a value has the older form: it is an object with the member `rules`.
pub fn is_older(json: &Json) -> bool
    ensures { result ≡ is_older json.now }
{
    match as_object(json) {
        Some(members) => has_key(members, "rules"),
        None => false,
    }
}

/// The form that a value of the older form has today, or the first rule of the older form that it breaks. It is nested
/// no deeper than the value.
pub fn today(alloc: Global, json: &Json) -> Result<Json, LegacyFault>
    requires older { IsTrue (is_older json.now) }
    requires keys { HasNoRepeatedKey json.now }
    ensures ok { IfOk result (λ value. value ≡ today_of json.now) }
    ensures unbroken { OnOk result (IsUnbroken json.now) }
    ensures refused { IfErr result (Refuses json.now) }
    ensures distinct_keys { IfOk result HasNoRepeatedKey }
    ensures depth { IfOk result (λ value. nesting value ≤ nesting json.now) }
    ensures numbers { IfOk result (λ value. HasNumbers json.now → HasNumbers value) }
{
    match as_object(json) {
        Some(members) => match first_breach(alloc, members)? {
            Some(breach) => {
                let text = pointer_of(alloc, &breach.place)?;
                Err(LegacyFault::Refused(breach.rule, text))
            }
            None => Ok(whole_today(alloc, members)?),
        },
        None => unreachable!(),
    }
}

/// The number of the rule with a name, from 1.
pub fn rule_number(json: &Json, name: &Text) -> Option<u32>
    requires older { IsTrue (is_older json.now) }
    requires unbroken { IsUnbroken json.now }
    requires few { length (rules_of json.now) < 2 ^ 32 }
    ensures some { IfSome result (λ n. (1 ≤ n) × (name_at (rules_of json.now) (n - 1) ≡ Some (Str name.now))) }
    ensures none { IfNone result ((i : ℕ) → name_at (rules_of json.now) i ≢ Some (Str name.now)) }
{
    let rules = rules_in(json);
    for (i, rule) in rules.iter().enumerate() {
        if is_named(rule, name.codes()) {
            return Some(i as u32 + 1);
        }
    }
    None
}

/// How many rules a value of the older form has.
pub fn rule_count(json: &Json) -> usize
    ensures { result ≡ length (rules_of json.now) }
{
    rules_in(json).len()
}

/// The rules of a value of the older form, and none of any other value.
fn rules_in(json: &Json) -> &[Json]
    ensures { result.now ≡ rules_of json.now }
{
    match rules_member(json) {
        Some(rules) => items_in(rules),
        None => &[],
    }
}

fn rules_member(json: &Json) -> Option<&Json>
    ensures { option_copied result ≡ value_of (codes "rules") (members_of json.now) }
{
    match as_object(json) {
        Some(members) => value_of(members, "rules"),
        None => None,
    }
}

fn items_in(json: &Json) -> &[Json]
    ensures { result.now ≡ items_of json.now }
{
    match as_list(json) {
        Some(items) => items,
        None => &[],
    }
}
