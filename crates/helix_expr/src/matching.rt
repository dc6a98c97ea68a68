//! A plain matcher, which tries each way to split a word. It is slow, and made for small inputs.

ghost use Rattle.std.specs.Prelude.{◌≡◌, ◌-◌, ◌≤◌, ◌↔◌, IsTrue, length};
ghost use Rattle.std.specs.Option.{option_map};
ghost use Rattle.helix_expr.specs.Matching.{Matches, MatchInOrder, MatchSome, Repeats, IsOneOf};
ghost use Rattle.helix_expr.specs.Inner.Splitting.{SplitsAt, SplitsOff};

use crate::expr::Expr;
use helix_base::in_ranges;

/// Whether an expression matches a whole word.
#[cycle(matching)]
pub fn matches(expr: &Expr, word: &[u32]) -> bool
    ensures { IsTrue result ↔ Matches expr.now word.now }
{
    match expr {
        Expr::Empty => word.is_empty(),
        Expr::Chars(ranges) => is_one_of(ranges.as_slice(), word),
        Expr::Seq(parts) => matches_in_order(parts.as_slice(), word),
        Expr::Alt(parts) => matches_some(parts.as_slice(), word),
        Expr::Repeat(part, least, most) => matches_repeated(part.get(), *least, *most, word),
    }
}

#[cycle(matching)]
fn matches_some(parts: &[Expr], word: &[u32]) -> bool
    ensures { IsTrue result ↔ MatchSome parts.now word.now }
{
    for part in parts {
        if matches(part, word) {
            return true;
        }
    }
    false
}

#[cycle(matching)]
fn matches_in_order(parts: &[Expr], word: &[u32]) -> bool
    ensures { IsTrue result ↔ MatchInOrder parts.now word.now }
{
    match parts.split_first() {
        None => word.is_empty(),
        Some((part, rest)) => {
            for cut in 0..word.len() + 1 {
                if matches(part, &word[..cut]) && matches_in_order(rest, &word[cut..]) {
                    return true;
                }
            }
            false
        }
    }
}

#[cycle(matching)]
fn matches_repeated(part: &Expr, least: u32, most: Option<u32>, word: &[u32]) -> bool
    ensures { IsTrue result ↔ Repeats (Matches part.now) least most word.now }
{
    if is_zero(most) {
        return least == 0 && word.is_empty();
    }
    let fewer = one_fewer(most);
    if least > 0 {
        splits_off(part, least - 1, fewer, 0, word)
    } else if word.is_empty() {
        true
    } else {
        // Empty words at the start add nothing where none are asked for.
        splits_off(part, 0, fewer, 1, word)
    }
}

/// Whether a first word, of at least `shortest` characters, leaves words that repeat.
#[cycle(matching)]
fn splits_off(part: &Expr, least: u32, most: Option<u32>, shortest: usize, word: &[u32]) -> bool
    requires { shortest ≤ length word.now }
    ensures { IsTrue result ↔ SplitsOff (Matches part.now) least most shortest word.now }
{
    for cut in shortest..word.len() + 1 {
        if splits_at(part, least, most, cut, word) {
            return true;
        }
    }
    false
}

#[cycle(matching)]
fn splits_at(part: &Expr, least: u32, most: Option<u32>, cut: usize, word: &[u32]) -> bool
    requires { cut ≤ length word.now }
    ensures { IsTrue result ↔ SplitsAt (Matches part.now) least most cut word.now }
{
    matches(part, &word[..cut]) && matches_repeated(part, least, most, &word[cut..])
}

fn is_zero(limit: Option<u32>) -> bool
    ensures { IsTrue result ↔ (limit ≡ Some 0) }
{
    match limit {
        Some(0) => true,
        _ => false,
    }
}

fn one_fewer(most: Option<u32>) -> Option<u32>
    ensures { result ≡ option_map (λ limit. limit - 1) most }
{
    match most {
        None => None,
        Some(limit) => Some(limit.saturating_sub(1)),
    }
}

fn is_one_of(ranges: &[(u32, u32)], word: &[u32]) -> bool
    ensures { IsTrue result ↔ IsOneOf ranges.now word.now }
{
    match word {
        [code] => in_ranges(ranges, *code),
        _ => false,
    }
}
