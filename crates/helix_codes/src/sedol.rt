//! SEDOL, one character at a time.

ghost use Rattle.std.specs.Prelude.{◌≡◌, ◌∷◌, ℕ, List};
ghost use Rattle.helix_values.specs.declared.kind.Code.TheVariants.{Sedol};
ghost use Rattle.helix_codes.specs.Inner.Completed.{IsPrefix, IsPrefixOrNone, completed_by, completes_sedol};
ghost use Rattle.helix_codes.specs.Inner.Positions.{sedol_allows};

use crate::prefix::Prefix;
use helix_base::is_digit;
use helix_values::codes::{is_sedol_character, weighted};

/// Whether a SEDOL may have a character after `count` others.
fn allows(count: usize, c: u32) -> bool
    ensures { result ≡ sedol_allows count c }
{
    if count < 6 {
        is_sedol_character(c)
    } else {
        count == 6 && is_digit(c)
    }
}

/// The prefix of a SEDOL with one character more, or `None` where no SEDOL begins so.
pub fn sedol_next(prefix: &Prefix, c: u32) -> Option<Prefix>
    requires { IsPrefix Sedol prefix.now }
    ensures prefix { IsPrefixOrNone Sedol result }
    ensures words { (word : List ℕ) → completed_by Sedol result word ≡ completes_sedol prefix.now (c ∷ word) }
{
    if !allows(prefix.count, c) {
        return None;
    }
    let sum = (prefix.even + weighted(prefix.count, c)) % 10;
    Some(Prefix {
        count: prefix.count + 1,
        even: sum,
        odd: sum,
    })
}
