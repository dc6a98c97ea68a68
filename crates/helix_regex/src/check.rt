//! The first rule that a text breaks, and where.

ghost use Rattle.std.specs.Prelude.{◌≡◌, ◌<◌, ◌||◌, Option, Some, None, nat_lt, IfSome, IfNone, IfOk, [], length};
ghost use Rattle.std.specs.List.{list_any};
ghost use Rattle.helix_regex.specs.Faults.{AreCharacters, IsPatternText, IsFirstOutside, FirstFault};
ghost use Rattle.helix_regex.specs.Inner.Rules.{anchors_found, first_rule, token_fault, least_some, stray_at, is_caret, is_dollar, outer_bar};

use crate::fault::{RegexFault, RegexRule};
use crate::rules::{
    has_caret, has_dollar, lesser, miscount, outer_bar, reversed_range, stray_anchor,
};
use crate::scan::syntax_error;
use crate::size::is_too_large;
use crate::token::Token;
use helix_base::Alphabet;
use std::alloc::{AllocError, Global};

/// Index of the first character outside the alphabet.
fn outside_alphabet(codes: &[u32]) -> Option<usize>
    ensures some { IfSome result (IsFirstOutside codes.now) }
    ensures none { IfNone result (AreCharacters codes.now) }
{
    for (i, code) in codes.iter().enumerate() {
        if !Alphabet::Unicode.has(*code) {
            return Some(i);
        }
    }
    None
}

/// The fault of a text that is in no pattern.
pub fn text_fault(codes: &[u32]) -> Option<RegexFault>
    ensures some { IfSome result (FirstFault codes.now) }
    ensures characters { IfNone result (AreCharacters codes.now) }
    ensures pattern { IfNone result (IsPatternText codes.now) }
{
    if let Some(at) = outside_alphabet(codes) {
        return Some(RegexFault {
            rule: RegexRule::OutsideAlphabet,
            at: at as u64,
        });
    }
    match syntax_error(codes) {
        Some(at) => Some(RegexFault {
            rule: RegexRule::Syntax,
            at: at as u64,
        }),
        None => None,
    }
}

/// Least offset at which the rule on anchors is broken, in a pattern of `size` characters.
fn bad_anchor(tokens: &[Token], size: usize) -> Option<usize>
    ensures { result ≡ anchors_found (least_some (stray_at size) tokens.now) (list_any is_caret tokens.now
        || list_any is_dollar tokens.now) (outer_bar 0 tokens.now) }
{
    let stray = stray_anchor(tokens, size);
    if has_caret(tokens) || has_dollar(tokens) {
        lesser(stray, outer_bar(tokens))
    } else {
        stray
    }
}

fn first_rule(
    anchor: Option<usize>,
    range: Option<usize>,
    count: Option<usize>,
    large: bool,
) -> Option<RegexFault>
    ensures { result ≡ first_rule anchor range count large }
{
    let (rule, at) = match (anchor, range, count) {
        (Some(at), _, _) => (RegexRule::Anchor, at),
        (None, Some(at), _) => (RegexRule::BadRange, at),
        (None, None, Some(at)) => (RegexRule::BadCount, at),
        (None, None, None) => {
            if !large {
                return None;
            }
            (RegexRule::TooLarge, 0)
        }
    };
    Some(RegexFault {
        rule,
        at: at as u64,
    })
}

/// The fault of a pattern of `size` characters, from its tokens.
pub fn token_fault(
    alloc: Global,
    tokens: &[Token],
    size: usize,
) -> Result<Option<RegexFault>, AllocError>
    ensures { IfOk result (λ found. found ≡ token_fault size tokens.now) }
{
    let large = is_too_large(alloc, tokens)?;
    Ok(first_rule(
        bad_anchor(tokens, size),
        reversed_range(tokens),
        miscount(tokens),
        large,
    ))
}
