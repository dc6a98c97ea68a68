//! The form of a token's text.

ghost use Rattle.std.specs.Prelude.{◌≡◌, ℕ, ◌↔◌, [], ◌∷◌, ◌++◌, List as Items, IfOk, IsTrue, MatchOption};
ghost use Rattle.std.specs.List.{AllByRecursion};
ghost use Rattle.helix_token.specs.Broken.{HasTokenForm, IsMarked, IsRowString};
ghost use Rattle.helix_token.specs.Token.{HoldsText, token_of_strings};

use crate::seeming::{Parts, seeming_parts};
use crate::write::text_of_strings;
use helix_base::{Memory, Text};
use std::alloc::Global;

/// The most bytes of a token, with its line feed.
const MOST_BYTES: usize = 1_048_576;

/// The parts of the token that bytes hold, and `None` where they have no token's form. What the bytes seem to say is
/// written again: only where that gives the same bytes, they are a token's.
pub(crate) fn parts_of(alloc: Global, bytes: &[u8]) -> Result<Option<Parts>, Memory>
    ensures { IfOk result (λ parts. MatchOption parts
        ((identity : Items ℕ) (strings : Items (Items ℕ)) → ¬ HasTokenForm bytes.now identity strings)
        (λ p. HasTokenForm bytes.now p.identity p.strings)) }
{
    if bytes.len() > MOST_BYTES {
        return Ok(None);
    }
    let body = without_line_feed(bytes);
    let Some(parts) = seeming_parts(alloc, body)? else {
        return Ok(None);
    };
    if !are_marked(parts.strings.as_slice()) {
        return Ok(None);
    }
    if is_text_of(alloc, body, &parts)? {
        Ok(Some(parts))
    } else {
        Ok(None)
    }
}

/// The bytes without one line feed at their end.
fn without_line_feed(bytes: &[u8]) -> &[u8]
    ensures held { HoldsText bytes.now result.now }
    ensures told { (front : Items ℕ) → HoldsText bytes.now (front ++ 125 ∷ []) → result.now ≡ front ++ 125 ∷ [] }
{
    let len = bytes.len();
    if len > 0 && bytes[len - 1] == b'\n' {
        &bytes[..len - 1]
    } else {
        bytes
    }
}

/// Whether each string is `n` or begins with `=`.
fn are_marked(strings: &[Text]) -> bool
    ensures { IsTrue result ↔ AllByRecursion IsRowString strings.now }
{
    for string in strings {
        if !is_marked(string.codes()) {
            return false;
        }
    }
    true
}

/// Whether a text is `n` or begins with `=`.
fn is_marked(codes: &[u32]) -> bool
    ensures { IsTrue result ↔ IsMarked codes.now }
{
    match codes {
        [] => false,
        [first] => *first == 'n' as u32 || *first == '=' as u32,
        [first, ..] => *first == '=' as u32,
    }
}

/// Whether bytes are the token's text of these parts.
fn is_text_of(alloc: Global, body: &[u8], parts: &Parts) -> Result<bool, Memory>
    ensures { IfOk result (λ same. IsTrue same ↔ (body.now ≡ token_of_strings parts.now.identity parts.now.strings)) }
{
    let text = text_of_strings(alloc, &parts.identity, parts.strings.as_slice())?;
    Ok(text.as_slice() == body)
}
