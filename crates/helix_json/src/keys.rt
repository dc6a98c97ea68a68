//! The rule that no key repeats an earlier key of its object.

ghost use Rattle.std.specs.Prelude.{◌≡◌, ◌<◌, ◌^◌, ℕ, List, length, IfOk, IfSome, IfNone};
ghost use Rattle.helix_json.specs.Broken.{RepeatsKey};
ghost use Rattle.helix_json.specs.Inner.Rules.{AreTokens, IsFirstAt, HoldsNowhere};
ghost use Rattle.helix_json.specs.Inner.Scopes.{BeginsWithKey, Closes, MovesScope};

use crate::token::Token;
use helix_base::Memory;
use std::alloc::Global;
use std::collections::BTreeSet;

/// The index of the first token that is a key which repeats an earlier key of its object.
pub fn first_repeated_key(alloc: Global, tokens: &[Token]) -> Result<Option<usize>, Memory>
    requires { AreTokens tokens.now }
    ensures some { IfOk result (λ found. IfSome found (IsFirstAt RepeatsKey tokens.now)) }
    ensures none { IfOk result (λ found. IfNone found (HoldsNowhere RepeatsKey tokens.now)) }
{
    // A key is kept with the index where its object starts, which tells the objects apart.
    let mut seen = BTreeSet::new(alloc);
    let mut outer = Vec::new(alloc);
    let mut start = 0;
    for (i, token) in tokens.iter().enumerate() {
        if let Some(key) = leading_key(&tokens[i..]) {
            if !seen.insert((start, key))? {
                return Ok(Some(i));
            }
        }
        start = pass(i, token, &mut outer, start)?;
    }
    Ok(None)
}

/// The key with which tokens begin, if they do.
fn leading_key(tokens: &[Token]) -> Option<&[u32]>
    ensures some { IfSome result (λ key. BeginsWithKey tokens.now key.now) }
    ensures none { IfNone result ((key : List ℕ) → ¬ (BeginsWithKey tokens.now key)) }
{
    match tokens {
        [Token::Str(key), Token::Colon, ..] => Some(key.codes()),
        _ => None,
    }
}

/// Where the innermost list or object starts after a token: the index of its first token. `outer`
/// keeps those of the others that are open.
fn pass(i: usize, token: &Token, outer: &mut Vec<usize>, start: usize) -> Result<usize, Memory>
    requires fits { i < 2 ^ 63 }
    requires inside { Closes token.now → 0 < length outer.old.items }
    ensures { IfOk result (λ next. MovesScope i token.now outer.old.items start outer.new.items next) }
{
    match token {
        Token::OpenList | Token::OpenObject => {
            outer.push(start)?;
            Ok(i + 1)
        }
        Token::CloseList | Token::CloseObject => Ok(outer.pop().unwrap()),
        _ => Ok(start),
    }
}
