//! ISIN, one character at a time.

ghost use Rattle.std.specs.Prelude.{◌≡◌, ◌∷◌, ℕ, List, if◌then◌else◌};
ghost use Rattle.helix_base.specs.Digits.{is_digit as digit};
ghost use Rattle.helix_values.specs.declared.kind.Code.TheVariants.{Isin};
ghost use Rattle.helix_codes.specs.Inner.Completed.{IsPrefix, IsPrefixOrNone, completed_by, completes_isin};
ghost use Rattle.helix_codes.specs.Inner.Positions.{isin_allows};

use crate::prefix::Prefix;
use helix_base::is_digit;
use helix_values::codes::{character_sum, is_capital};

/// Whether an ISIN may have a character after `count` others.
fn allows(count: usize, c: u32) -> bool
    ensures { result ≡ isin_allows count c }
{
    if count < 2 {
        is_capital(c)
    } else if count < 11 {
        is_capital(c) || is_digit(c)
    } else {
        count == 11 && is_digit(c)
    }
}

/// The sums of a prefix where an even and where an odd number of digits follows a character that comes next.
fn sums_before(prefix: &Prefix, c: u32) -> (u64, u64)
    ensures even { result.0 ≡ (if digit c then prefix.now.odd else prefix.now.even) }
    ensures odd { result.1 ≡ (if digit c then prefix.now.even else prefix.now.odd) }
{
    // A letter has two digits.
    if is_digit(c) {
        (prefix.odd, prefix.even)
    } else {
        (prefix.even, prefix.odd)
    }
}

/// The prefix of an ISIN with one character more, or `None` where no ISIN begins so.
pub fn isin_next(prefix: &Prefix, c: u32) -> Option<Prefix>
    requires { IsPrefix Isin prefix.now }
    ensures prefix { IsPrefixOrNone Isin result }
    ensures words { (word : List ℕ) → completed_by Isin result word ≡ completes_isin prefix.now (c ∷ word) }
{
    if !allows(prefix.count, c) {
        return None;
    }
    let (even, odd) = sums_before(prefix, c);
    Some(Prefix {
        count: prefix.count + 1,
        even: (even + character_sum(c, false)) % 10,
        odd: (odd + character_sum(c, true)) % 10,
    })
}
