//! The profile files that are accepted so far: one boolean field, and no constraints.

ghost use Rattle.std.specs.Prelude.{◌≡◌, ◌≢◌, ℕ, List, Bool, [], Option, IfSome, IfNone, MatchOption, length, ◌≤◌};
ghost use Rattle.helix_run.specs.Profile.{ReadsProfile, IsRefused, IsFlagName, quoted_before, after_name, Follows, SaysNullable, is_name_character};
ghost use Rattle.helix_run.specs.Inner.Name.{name_length, field_of};

use crate::pattern::{after, follows};

/// A profile file has at most this many bytes.
pub const LONGEST_PROFILE: usize = 1_048_576;

/// A boolean field.
#[derive(Clone, Copy, Debug)]
pub struct Field<'a> {
    /// 1 to 200 characters from U+0020 to U+007E, without a quote or a backslash.
    pub name: &'a [u8],
    pub nullable: bool,
}

/// The field of a profile file, or `None` where the bytes are no profile that is accepted.
pub fn read_profile(bytes: &[u8]) -> Option<Field<'_>>
    ensures read { IfSome result (λ found. ReadsProfile bytes.now (field_of found)) }
    ensures refused { IfNone result (IsRefused bytes.now) }
{
    if bytes.len() > LONGEST_PROFILE {
        return None;
    }
    let opened = after(bytes, b" { \"fields\" : [ { \"name\" : ")?;
    let (name, rest) = quoted_name(opened)?;
    let nullable = nullable_of(rest)?;
    Some(Field { name, nullable })
}

/// The name between quotes at the start, and what is after it.
fn quoted_name(bytes: &[u8]) -> Option<(&[u8], &[u8])>
    ensures name { IfSome result (λ parts. IsFlagName parts.0.now) }
    ensures parts { IfSome result (λ parts. bytes.now ≡ quoted_before parts.0.now parts.1.now) }
    ensures none { IfNone result ((name rest : List ℕ) → IsFlagName name → bytes.now ≢ quoted_before name rest) }
{
    let (first, inner) = bytes.split_first()?;
    let end = name_length(inner);
    if *first != b'"' || end == 0 || end > 200 || end == inner.len() || inner[end] != b'"' {
        return None;
    }
    Some((&inner[..end], &inner[end + 1..]))
}

/// The number of characters of a name at the start.
fn name_length(bytes: &[u8]) -> usize
    ensures value { result ≡ name_length bytes.now }
    ensures within { result ≤ length bytes.now }
{
    for (i, byte) in bytes.iter().enumerate() {
        if !is_name_character(*byte) {
            return i;
        }
    }
    bytes.len()
}

/// Whether a byte may be part of a name.
fn is_name_character(byte: u8) -> bool
    ensures { result ≡ is_name_character byte }
{
    matches!(byte, b' '..=b'~') && !matches!(byte, b'"' | b'\\')
}

/// What the bytes after the name say of null, or `None` where they are not written as they have to be.
fn nullable_of(bytes: &[u8]) -> Option<bool>
    ensures says { IfSome result (SaysNullable bytes.now) }
    ensures none { IfNone result ((written : Option Bool) → ¬ Follows (after_name written) bytes.now []) }
{
    if follows(
        bytes,
        b" , \"type\" : \"boolean\" } ] , \"constraints\" : [ ] } ",
    ) {
        Some(true)
    } else if follows(
        bytes,
        b" , \"type\" : \"boolean\" , \"nullable\" : true } ] , \"constraints\" : [ ] } ",
    ) {
        Some(true)
    } else if follows(
        bytes,
        b" , \"type\" : \"boolean\" , \"nullable\" : false } ] , \"constraints\" : [ ] } ",
    ) {
        Some(false)
    } else {
        None
    }
}
