//! The rule that at most 64 lists and objects are open.

ghost use Rattle.std.specs.Prelude.{◌≡◌, ◌≤◌, [], ◌∷◌, IfSome, IfNone};
ghost use Rattle.std.specs.Bool.{MatchBool};
ghost use Rattle.helix_json.specs.Broken.{BeginsTooDeep, Opens, level_after};
ghost use Rattle.helix_json.specs.Inner.Rules.{IsFirstAt, HoldsNowhere};

use crate::token::Token;

/// The greatest nesting of lists and objects.
const MAX_DEPTH: u32 = 64;

/// The index of the first token that begins level 65.
pub fn first_too_deep(tokens: &[Token]) -> Option<usize>
    ensures some { IfSome result (IsFirstAt BeginsTooDeep tokens.now) }
    ensures none { IfNone result (HoldsNowhere BeginsTooDeep tokens.now) }
{
    let mut level = 0;
    for (i, token) in tokens.iter().enumerate() {
        if level == MAX_DEPTH && opens(token) {
            return Some(i);
        }
        level = level_after(level, token);
    }
    None
}

/// Whether a token opens a list or an object.
fn opens(token: &Token) -> bool
    ensures { MatchBool result (Opens token.now) (¬ (Opens token.now)) }
{
    match token {
        Token::OpenList | Token::OpenObject => true,
        _ => false,
    }
}

/// How many lists and objects are open after a token.
fn level_after(level: u32, token: &Token) -> u32
    requires { level ≤ 64 }
    ensures { result ≡ level_after level (token.now ∷ []) }
{
    match token {
        Token::OpenList | Token::OpenObject => level + 1,
        Token::CloseList | Token::CloseObject => level.saturating_sub(1),
        _ => level,
    }
}
