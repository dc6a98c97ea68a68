//! CUSIP, one character at a time.

ghost use Rattle.std.specs.Prelude.{◌≡◌, ◌∷◌, ℕ, List};
ghost use Rattle.helix_values.specs.declared.kind.Code.TheVariants.{Cusip};
ghost use Rattle.helix_codes.specs.Inner.Completed.{IsPrefix, IsPrefixOrNone, completed_by, completes_cusip};
ghost use Rattle.helix_codes.specs.Inner.Positions.{cusip_allows};

use crate::prefix::Prefix;
use helix_base::is_digit;
use helix_values::codes::{doubled, is_cusip_character, value_of};

/// Whether a CUSIP may have a character after `count` others.
fn allows(count: usize, c: u32) -> bool
    ensures { result ≡ cusip_allows count c }
{
    if count < 8 {
        is_cusip_character(c)
    } else {
        count == 8 && is_digit(c)
    }
}

/// The prefix of a CUSIP with one character more, or `None` where no CUSIP begins so. The second character is doubled,
/// and each second one after it.
pub fn cusip_next(prefix: &Prefix, c: u32) -> Option<Prefix>
    requires { IsPrefix Cusip prefix.now }
    ensures prefix { IsPrefixOrNone Cusip result }
    ensures words { (word : List ℕ) → completed_by Cusip result word ≡ completes_cusip prefix.now (c ∷ word) }
{
    if !allows(prefix.count, c) {
        return None;
    }
    let sum = (prefix.even + doubled(value_of(c), prefix.count % 2 == 1)) % 10;
    Some(Prefix {
        count: prefix.count + 1,
        even: sum,
        odd: sum,
    })
}
