//! The draft of a profile.

ghost use Rattle.std.specs.Prelude.{◌≡◌, ◌∷◌, IfErr, IfOk};
ghost use Rattle.helix_fields.specs.Fields.{fields_of};
ghost use Rattle.helix_json.specs.Values.{HasNoRepeatedKey};
ghost use Rattle.helix_rules.specs.Breaches.{FindsBreach};
ghost use Rattle.helix_rules.specs.declared.rule.Rule.TheVariants as rules;
ghost use Rattle.helix_validity.specs.Unbroken.{IsUnbrokenProfile, profile_rules};
ghost use Rattle.helix_schema.specs.Refusals.{IsDraftOf, IsDraftToday, Refuses, RefusesToday};
ghost use Rattle.helix_schema.specs.Refusals.{refusal, rule_of as rule_of_older};

use crate::draft::{Draft, draft_of};
use crate::fault::SchemaFault;
use crate::mentions::mentions_of;
use crate::refusal::{Location, Refusal};
use crate::wish::wishes_of;
use helix_base::{Alphabet, Memory};
use helix_fields::read_fields;
use helix_json::Json;
use helix_legacy::{LegacyFault, LegacyRule, is_older, today};
use helix_places::pointer_of;
use helix_rules::{Breach, PROFILE_RULES, Rule, first_breach};
use helix_validity::laws::no_breach;
use std::alloc::Global;

/// The draft of a value of either form, or the first rule that it breaks, with its first place.
pub fn read_profile(alloc: Global, alphabet: Alphabet, v: Json) -> Result<Draft, SchemaFault>
    requires { HasNoRepeatedKey v }
    ensures ok { IfOk result (IsDraftOf alphabet v) }
    ensures err { IfErr result (Refuses alphabet v) }
{
    if !is_older(&v) {
        return read_today(alloc, alphabet, v);
    }
    match today(alloc, &v) {
        Ok(value) => read_today(alloc, alphabet, value),
        Err(LegacyFault::Refused(rule, pointer)) => Err(SchemaFault::Refused(Refusal {
            rule: rule_of(rule),
            location: Location::Pointer(pointer),
        })),
        Err(LegacyFault::Memory) => Err(SchemaFault::Memory),
    }
}

/// The same for a value in today's form.
fn read_today(alloc: Global, alphabet: Alphabet, value: Json) -> Result<Draft, SchemaFault>
    requires { HasNoRepeatedKey value }
    ensures ok { IfOk result (IsDraftToday alphabet value) }
    ensures err { IfErr result (RefusesToday alphabet value) }
{
    no_breach();
    match breach_of(alloc, alphabet, &value)? {
        Some(breach) => Err(SchemaFault::Refused(refusal_of(alloc, &breach)?)),
        None => Ok(accepted(alloc, alphabet, value)?),
    }
}

/// The draft of a value that breaks no rule.
fn accepted(alloc: Global, alphabet: Alphabet, value: Json) -> Result<Draft, Memory>
    requires keys { HasNoRepeatedKey value }
    requires unbroken { IsUnbrokenProfile (fields_of alphabet value) value }
    ensures { IfOk result (IsDraftToday alphabet value) }
{
    let fields = read_fields(alloc, alphabet, &value)?;
    let mentions = mentions_of(alloc, fields.as_slice(), &value)?;
    let wishes = wishes_of(alloc, mentions)?;
    Ok(draft_of(alphabet, value, wishes))
}

/// The first of the rules S1 to S21 that is broken.
fn breach_of(alloc: Global, alphabet: Alphabet, value: &Json) -> Result<Option<Breach>, Memory>
    requires { HasNoRepeatedKey value.now }
    ensures { IfOk result
        (FindsBreach (fields_of alphabet value.now) (rules.S1 ∷ profile_rules) value.now) }
{
    match first_breach(alloc, alphabet, &[Rule::S1], value)? {
        Some(breach) => Ok(Some(breach)),
        None => first_breach(alloc, alphabet, &PROFILE_RULES, value),
    }
}

fn refusal_of(alloc: Global, breach: &Breach) -> Result<Refusal, Memory>
    ensures { IfOk result (λ refused. refused ≡ refusal breach.now.rule breach.now.place) }
{
    Ok(Refusal {
        rule: breach.rule,
        location: Location::Pointer(pointer_of(alloc, &breach.place)?),
    })
}

/// A rule of the older form, among all rules.
fn rule_of(rule: LegacyRule) -> Rule
    ensures { result ≡ rule_of_older rule }
{
    match rule {
        LegacyRule::L1 => Rule::L1,
        LegacyRule::L2 => Rule::L2,
        LegacyRule::L3 => Rule::L3,
        LegacyRule::L4 => Rule::L4,
    }
}
