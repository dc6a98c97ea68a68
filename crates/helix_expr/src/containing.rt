//! Words that contain a match, found by trying each part of the word.

ghost use Rattle.std.specs.Prelude.{◌↔◌, IsTrue, false};
ghost use Rattle.helix_expr.specs.Matching.{ContainsMatch};
ghost use Rattle.helix_expr.specs.Inner.Splitting.{BeginsMatch};

use crate::expr::Expr;
use crate::matching::matches;
use crate::regex::Regex;

/// Whether a word contains a match, at its start or its end where an anchor says so. It is slow,
/// and made for small inputs.
pub fn contains_match(regex: &Regex, word: &[u32]) -> bool
    ensures { IsTrue result ↔ ContainsMatch regex.now word.now }
{
    if regex.at_start {
        begins_match(&regex.expr, regex.at_end, word)
    } else {
        contains_somewhere(&regex.expr, regex.at_end, word)
    }
}

fn contains_somewhere(expr: &Expr, at_end: bool, word: &[u32]) -> bool
    ensures { IsTrue result ↔ ContainsMatch (record { expr = expr.now; at_start = false; at_end = at_end }) word.now }
{
    for cut in 0..word.len() + 1 {
        if begins_match(expr, at_end, &word[cut..]) {
            return true;
        }
    }
    false
}

/// Whether a word begins with a match, which is all of it where the end is bound.
fn begins_match(expr: &Expr, at_end: bool, word: &[u32]) -> bool
    ensures { IsTrue result ↔ BeginsMatch expr.now at_end word.now }
{
    if at_end {
        matches(expr, word)
    } else {
        begins_somehow(expr, word)
    }
}

fn begins_somehow(expr: &Expr, word: &[u32]) -> bool
    ensures { IsTrue result ↔ BeginsMatch expr.now false word.now }
{
    for cut in 0..word.len() + 1 {
        if matches(expr, &word[..cut]) {
            return true;
        }
    }
    false
}
