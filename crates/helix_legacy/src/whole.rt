//! Today's form of a whole value of the older form.

ghost use Rattle.std.specs.Prelude.{◌≡◌, IfOk, codes, map, option_copied};
ghost use Rattle.helix_json.specs.declared.value.Json.TheViews as view;
ghost use Rattle.helix_places.specs.Members.{items_of, members_of, value_of};
ghost use Rattle.helix_legacy.specs.Today.{member_today, rule_today};

use crate::convert::constraints_today;
use helix_base::Memory;
use helix_json::{Items, Json, Member, Members};
use helix_places::{as_list, as_object, is_word, value_of, word_text};
use std::alloc::Global;

/// The value with these members, in today's form.
pub fn whole_today(alloc: Global, members: &[Member]) -> Result<Json, Memory>
    ensures { IfOk result (λ today. today ≡ view.Object (map member_today members.now)) }
{
    let mut all = Members::new(alloc);
    for old in members {
        all.push(member_today(alloc, old)?)?;
    }
    Ok(Json::Object(all))
}

fn member_today(alloc: Global, old: &Member) -> Result<Member, Memory>
    ensures { IfOk result (λ today. today ≡ member_today old.now) }
{
    if !is_word(old.key.codes(), "rules") {
        return old.copy(alloc);
    }
    let key = word_text(alloc, "constraints")?;
    let value = rules_today(alloc, &old.value)?;
    Ok(Member { key, value })
}

fn rules_today(alloc: Global, rules: &Json) -> Result<Json, Memory>
    ensures { IfOk result (λ today. today ≡ view.List (map rule_today (items_of rules.now))) }
{
    match as_list(rules) {
        Some(items) => each_today(alloc, items),
        None => Ok(Json::List(Items::new(alloc))),
    }
}

fn each_today(alloc: Global, rules: &[Json]) -> Result<Json, Memory>
    ensures { IfOk result (λ today. today ≡ view.List (map rule_today rules.now)) }
{
    let mut all = Items::new(alloc);
    for rule in rules {
        all.push(rule_today(alloc, rule)?)?;
    }
    Ok(Json::List(all))
}

/// A rule: all of its constraints.
fn rule_today(alloc: Global, rule: &Json) -> Result<Json, Memory>
    ensures { IfOk result (λ today. today ≡ rule_today rule.now) }
{
    let value = match constraints_in(rule) {
        Some(constraints) => constraints_today(alloc, constraints)?,
        None => Json::Null,
    };
    let key = word_text(alloc, "allOf")?;
    let mut members = Members::new(alloc);
    members.push(Member { key, value })?;
    Ok(Json::Object(members))
}

fn constraints_in(rule: &Json) -> Option<&Json>
    ensures { option_copied result ≡ value_of (codes "constraints") (members_of rule.now) }
{
    match as_object(rule) {
        Some(members) => value_of(members, "constraints"),
        None => None,
    }
}
