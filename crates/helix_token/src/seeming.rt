//! What bytes seem to say as a token, read without a look at blanks, names and marks.

ghost use Rattle.std.specs.Prelude.{◌≡◌, ◌≢◌, ℕ, ◌∷◌, List as Items, map, drop, IfOk, IsSomeAnd, MatchOption, Some};
ghost use Rattle.std.specs.List.{AllByRecursion};
ghost use Rattle.std.specs.Str.{chars};
ghost use Rattle.hex.specs.Hex.{encode_lower};
ghost use Rattle.json.specs.Token.{Token as JsonToken, string};
ghost use Rattle.helix_token.specs.Broken.{IsRowString};
ghost use Rattle.helix_token.specs.Identity.{IsIdentity};
ghost use Rattle.helix_token.specs.Inner.Strings.{first_strings, token_tokens};
ghost use Rattle.helix_token.specs.Token.{token_of_strings};

use helix_base::{List, Memory, Text};
use hex::FromHex;
use json::{Reader, Scratch, Token};
use std::alloc::Global;

/// What a token says: an identity, and a string for each cell.
#[derive(Debug, Drop)]
pub(crate) struct Parts {
    pub(crate) identity: [u8; 32],
    pub(crate) strings: List<Text>,
}

/// What bytes seem to say: where they are a token's text, its parts.
pub(crate) fn seeming_parts(alloc: Global, body: &[u8]) -> Result<Option<Parts>, Memory>
    ensures { (identity : Items ℕ) (strings : Items (Items ℕ)) → IsIdentity identity
        → AllByRecursion IsRowString strings → body.now ≡ token_of_strings identity strings
        → IfOk result (λ parts. IsSomeAnd parts (λ p. (p.identity ≡ identity) × (p.strings ≡ strings))) }
{
    let Ok(text) = str::from_utf8(body) else {
        return Ok(None);
    };
    let mut scratch = Scratch::new(alloc);
    let mut reader = Reader::new(text, &mut scratch)?;
    read_parts(alloc, &mut reader)
}

/// Reads the parts.
fn read_parts(alloc: Global, reader: &mut Reader<'_>) -> Result<Option<Parts>, Memory>
    ensures { (identity : Items ℕ) (strings : Items (Items ℕ)) → IsIdentity identity
        → AllByRecursion IsRowString strings → reader.old ≡ token_tokens identity strings
        → IfOk result (λ parts. IsSomeAnd parts (λ p. (p.identity ≡ identity) × (p.strings ≡ strings))) }
{
    skip(reader, 4);
    let Some(digits) = next_string(reader) else {
        return Ok(None);
    };
    let Some(identity) = identity_of(digits) else {
        return Ok(None);
    };
    skip(reader, 2);
    Ok(Some(Parts {
        identity,
        strings: read_strings(alloc, reader)?,
    }))
}

/// Passes over some tokens.
fn skip(reader: &mut Reader<'_>, count: usize)
    ensures { reader.new ≡ drop count reader.old }
{
    for _ in 0..count {
        let _token = reader.next();
    }
}

/// The next token, where it is a string.
fn next_string<'a>(reader: &mut Reader<'a>) -> Option<&'a str>
    ensures { MatchOption result ((text : Items ℕ) (rest : Items JsonToken) → reader.old ≢ string text ∷ rest)
        (λ text. reader.old ≡ string text.now ∷ reader.new) }
{
    match reader.next() {
        Some(Token::String(text)) => Some(text),
        _ => None,
    }
}

/// The identity of its digits.
fn identity_of(digits: &str) -> Option<[u8; 32]>
    ensures { (identity : Items ℕ) → IsIdentity identity → digits.now ≡ encode_lower identity
        → result ≡ Some identity }
{
    <[u8; 32] as FromHex>::from_hex(digits).ok()
}

/// Reads strings, up to the first token that is none.
fn read_strings(alloc: Global, reader: &mut Reader<'_>) -> Result<List<Text>, Memory>
    ensures { IfOk result (λ strings. strings ≡ map chars (first_strings reader.old)) }
{
    let mut strings = List::new(alloc);
    while let Some(text) = next_string(reader) {
        strings.push(Text::of(alloc, text)?)?;
    }
    Ok(strings)
}
