//! JSON text, read into its value.

ghost use Rattle.std.specs.Prelude.{◌≡◌, ◌≢◌, ◌≤◌, length, IfOk, IfErr, OnOk, IsTrue};
ghost use Rattle.std.specs.Str.{all_scalars};
ghost use Rattle.helix_json.specs.declared.fault.JsonFault.{JsonFault as Fault};
ghost use Rattle.helix_json.specs.declared.value.Json.{Json as Value};
ghost use Rattle.helix_json.specs.Broken.{FirstBroken, SpellsJson, byte_offset, max_depth};
ghost use Rattle.helix_json.specs.Inner.Reading.{BreaksRule, IsSound};
ghost use Rattle.helix_json.specs.Inner.Scanned.{AreTokensOf};
ghost use Rattle.helix_json.specs.Values.{HasNoRepeatedKey, nesting};

use crate::build::build;
use crate::depth::first_too_deep;
use crate::fault::JsonFault;
use crate::keys::first_repeated_key;
use crate::scan::scan;
use crate::scanned::{Scan, Scanned};
use crate::value::Json;
use helix_base::Text;
use std::alloc::Global;

/// Maximum input length in bytes.
const MAX_BYTES: usize = 1_048_576;

/// The value that the bytes spell, or the first rule that they break (RFC 8259, narrowed by the
/// rules of [`JsonFault`]). Time is in proportion to the length, but for the comparison of keys,
/// which takes a logarithm more; nesting costs no stack.
pub fn read(alloc: Global, bytes: &[u8]) -> Result<Json, JsonFault>
    ensures value { IfOk result (SpellsJson bytes.now) }
    ensures distinct_keys { IfOk result HasNoRepeatedKey }
    ensures depth { IfOk result (λ value. nesting value ≤ max_depth) }
    ensures unbroken { OnOk result ((fault : Fault) → ¬ (FirstBroken bytes.now fault)) }
    ensures broken { IfErr result (λ fault. fault ≢ JsonFault.Memory → FirstBroken bytes.now fault) }
{
    if bytes.len() > MAX_BYTES {
        return Err(JsonFault::TooLong);
    }
    match str::from_utf8(bytes) {
        Ok(string) => {
            let text = Text::of(alloc, string)?;
            read_text(alloc, text.codes())
        }
        Err(error) => Err(JsonFault::NotUtf8 {
            at: error.valid_up_to() as u64,
        }),
    }
}

/// The value that a text spells, or the first of the rules J3 to J5 that it breaks.
fn read_text(alloc: Global, codes: &[u32]) -> Result<Json, JsonFault>
    requires scalars { IsTrue (all_scalars codes.now) }
    requires short { length codes.now ≤ 1048576 }
    ensures sound { IfOk result (IsSound codes.now) }
    ensures broken { IfErr result (BreaksRule codes.now) }
{
    match scan(alloc, codes)? {
        Scan::Tokens(scanned) => value_of(alloc, codes, scanned),
        Scan::SyntaxError(count) => Err(JsonFault::Grammar {
            at: byte_offset(codes, count),
        }),
    }
}

/// The value with the tokens of a text, or the first of the rules J4 and J5 that it breaks.
fn value_of(alloc: Global, codes: &[u32], scanned: Scanned) -> Result<Json, JsonFault>
    requires scalars { IsTrue (all_scalars codes.now) }
    requires short { length codes.now ≤ 1048576 }
    requires scanned { (value : Value) × AreTokensOf codes.now value scanned.tokens.items scanned.offsets.items }
    ensures sound { IfOk result (IsSound codes.now) }
    ensures broken { IfErr result (BreaksRule codes.now) }
{
    if let Some(i) = first_too_deep(scanned.tokens.as_slice()) {
        return Err(JsonFault::TooDeep {
            at: byte_offset(codes, scanned.offsets[i]),
        });
    }
    if let Some(i) = first_repeated_key(alloc, scanned.tokens.as_slice())? {
        return Err(JsonFault::DuplicateKey {
            at: byte_offset(codes, scanned.offsets[i]),
        });
    }
    Ok(build(alloc, scanned.tokens)?)
}

/// The offset in bytes of the character at an offset in characters.
fn byte_offset(codes: &[u32], count: usize) -> u64
    requires scalars { IsTrue (all_scalars codes.now) }
    requires short { length codes.now ≤ 1048576 }
    requires within { count ≤ length codes.now }
    ensures { result ≡ byte_offset codes.now count }
{
    let mut offset = 0;
    for code in &codes[..count] {
        offset += char::from_u32(*code).unwrap().len_utf8() as u64;
    }
    offset
}
