//! The rules of a pattern on its tokens.

ghost use Rattle.std.specs.Prelude.{◌≡◌, ℕ, ◌+◌, ◌-◌, ◌<◌, ◌||◌, pred, nat_lt, length, drop};
ghost use Rattle.std.specs.List.{list_any};
ghost use Rattle.helix_regex.specs.Faults.{lesser};
ghost use Rattle.helix_regex.specs.Inner.Rules.{first_some, least_some, reversed_at, exceeds, miscounted_at, stray_at, some_if, is_caret, is_dollar, level, bar_at, outer_bar, deepest};

use crate::limits::MAX_COUNT;
use crate::token::Token;

fn some_if(test: bool, at: usize) -> Option<usize>
    ensures { result ≡ some_if test at }
{
    if test { Some(at) } else { None }
}

fn reversed_at(token: Token) -> Option<usize>
    ensures { result ≡ reversed_at token }
{
    match token {
        Token::Range(first, last, at) => some_if(last < first, at),
        _ => None,
    }
}

/// Offset of the first reversed range.
pub fn reversed_range(tokens: &[Token]) -> Option<usize>
    ensures { result ≡ first_some reversed_at tokens.now }
{
    for token in tokens {
        if let Some(at) = reversed_at(*token) {
            return Some(at);
        }
    }
    None
}

fn exceeds(most: Option<u32>, least: u32) -> bool
    ensures { result ≡ exceeds most least }
{
    match most {
        None => false,
        Some(most) => MAX_COUNT < most || most < least,
    }
}

fn miscounted_at(token: Token) -> Option<usize>
    ensures { result ≡ miscounted_at token }
{
    match token {
        Token::Repeat(least, most, at) => some_if(MAX_COUNT < least || exceeds(most, least), at),
        _ => None,
    }
}

/// Offset of the first count with a number above 1,000, or a second one below the first.
pub fn miscount(tokens: &[Token]) -> Option<usize>
    ensures { result ≡ first_some miscounted_at tokens.now }
{
    for token in tokens {
        if let Some(at) = miscounted_at(*token) {
            return Some(at);
        }
    }
    None
}

fn stray_at(size: usize, token: Token) -> Option<usize>
    ensures { result ≡ stray_at size token }
{
    match token {
        Token::Caret(at) => some_if(0 < at, at),
        Token::Dollar(at) => some_if(at < size && at + 1 < size, at),
        _ => None,
    }
}

pub fn lesser(a: Option<usize>, b: Option<usize>) -> Option<usize>
    ensures { result ≡ lesser a b }
{
    match (a, b) {
        (None, b) => b,
        (a, None) => a,
        (Some(x), Some(y)) => Some(x.min(y)),
    }
}

/// Least offset of a `^` that is not first, or a `$` that is not last.
pub fn stray_anchor(tokens: &[Token], size: usize) -> Option<usize>
    ensures { result ≡ least_some (stray_at size) tokens.now }
{
    let mut least = None;
    for token in tokens {
        least = lesser(least, stray_at(size, *token));
    }
    least
}

fn is_caret(token: Token) -> bool
    ensures { result ≡ is_caret token }
{
    match token {
        Token::Caret(_) => true,
        _ => false,
    }
}

fn is_dollar(token: Token) -> bool
    ensures { result ≡ is_dollar token }
{
    match token {
        Token::Dollar(_) => true,
        _ => false,
    }
}

pub fn has_caret(tokens: &[Token]) -> bool
    ensures { result ≡ list_any is_caret tokens.now }
{
    tokens.iter().any(|token| is_caret(*token))
}

pub fn has_dollar(tokens: &[Token]) -> bool
    ensures { result ≡ list_any is_dollar tokens.now }
{
    tokens.iter().any(|token| is_dollar(*token))
}

fn level(depth: usize, token: Token) -> usize
    requires { depth < usize.MAX }
    ensures { result ≡ level depth token }
{
    match token {
        Token::Open => depth + 1,
        Token::Close => depth.saturating_sub(1),
        _ => depth,
    }
}

fn bar_at(depth: usize, token: Token) -> Option<usize>
    ensures { result ≡ bar_at depth token }
{
    match token {
        Token::Bar(at) => some_if(depth == 0, at),
        _ => None,
    }
}

/// Offset of the first `|` outside of every group.
pub fn outer_bar(tokens: &[Token]) -> Option<usize>
    ensures { result ≡ outer_bar 0 tokens.now }
{
    let mut depth: usize = 0;
    for token in tokens {
        if let Some(at) = bar_at(depth, *token) {
            return Some(at);
        }
        depth = level(depth, *token);
    }
    None
}

/// The nesting of groups.
#[tactic(auto, using(crate::proofs::Deep::least, crate::proofs::Deep::level_most, crate::proofs::Deep::more,))]
pub fn deepest(tokens: &[Token]) -> usize
    ensures { result ≡ deepest 0 tokens.now }
{
    let mut depth: usize = 0;
    let mut most: usize = 0;
    for token in tokens {
        depth = level(depth, *token);
        most = most.max(depth);
    }
    most
}
