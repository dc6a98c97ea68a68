//! The draft of a profile, from the bytes of its file.

ghost use Rattle.std.specs.Prelude.{◌≡◌, IfErr, IfOk};
ghost use Rattle.helix_json.specs.Values.{HasNoRepeatedKey};
ghost use Rattle.helix_schema.specs.Refusals.{IsDraftOf};
ghost use Rattle.helix_loading.specs.Inner.Stages.{IsJsonStop, StopsDraft, StopsValue};
ghost use Rattle.helix_loading.specs.Sources.{IsDrafted};

use crate::loaded::LoadFault;
use helix_base::Alphabet;
use helix_json::{Json, JsonFault, read};
use helix_rules::Rule;
use helix_schema::{Draft, Location, Refusal, SchemaFault, read_profile};
use std::alloc::Global;

/// The draft of the profile that the bytes spell.
pub fn drafted(alloc: Global, alphabet: Alphabet, bytes: &[u8]) -> Result<Draft, LoadFault>
    ensures ok { IfOk result (IsDrafted alphabet bytes.now) }
    ensures err { IfErr result (StopsDraft alphabet bytes.now) }
{
    match read(alloc, bytes) {
        Ok(value) => draft_for(alloc, alphabet, value),
        Err(fault) => Err(json_stop(fault)),
    }
}

/// The draft of a value.
fn draft_for(alloc: Global, alphabet: Alphabet, value: Json) -> Result<Draft, LoadFault>
    requires { HasNoRepeatedKey value }
    ensures ok { IfOk result (IsDraftOf alphabet value) }
    ensures err { IfErr result (StopsValue alphabet value) }
{
    match read_profile(alloc, alphabet, value) {
        Ok(draft) => Ok(draft),
        Err(SchemaFault::Refused(refused)) => Err(LoadFault::Refused(refused)),
        Err(SchemaFault::Memory) => Err(LoadFault::Memory),
    }
}

/// The refusal of bytes that are no JSON.
fn json_stop(fault: JsonFault) -> LoadFault
    ensures { IsJsonStop fault result }
{
    match fault {
        JsonFault::TooLong => refused_at(Rule::J1, 1_048_576),
        JsonFault::NotUtf8 { at } => refused_at(Rule::J2, at),
        JsonFault::Grammar { at } => refused_at(Rule::J3, at),
        JsonFault::TooDeep { at } => refused_at(Rule::J4, at),
        JsonFault::DuplicateKey { at } => refused_at(Rule::J5, at),
        JsonFault::Memory => LoadFault::Memory,
    }
}

fn refused_at(rule: Rule, at: u64) -> LoadFault
    ensures { result ≡ LoadFault.Refused (record { rule = rule; location = Location.Byte at }) }
{
    LoadFault::Refused(Refusal {
        rule,
        location: Location::Byte(at),
    })
}
