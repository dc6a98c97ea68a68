//! One character more, by the code.

ghost use Rattle.std.specs.Prelude.{◌≡◌, ◌∷◌, ℕ, List};
ghost use Rattle.helix_codes.specs.Inner.Completed.{IsPrefixOrNone, completed_by};
ghost use Rattle.helix_codes.specs.Inner.Positions.{length_of as length_of_code};

use crate::cusip::cusip_next;
use crate::isin::isin_next;
use crate::prefix::Prefix;
use crate::sedol::sedol_next;
use helix_values::Code;

/// The number of characters of a code's words.
pub fn length_of(code: Code) -> usize
    ensures { result ≡ length_of_code code }
{
    match code {
        Code::Isin => 12,
        Code::Sedol => 7,
        Code::Cusip => 9,
    }
}

/// The prefix with one character more, or `None` where no word of the code begins so.
pub fn next(code: Code, prefix: &Option<Prefix>, c: u32) -> Option<Prefix>
    requires { IsPrefixOrNone code prefix.now }
    ensures prefix { IsPrefixOrNone code result }
    ensures words { (word : List ℕ) → completed_by code result word ≡ completed_by code prefix.now (c ∷ word) }
{
    let Some(prefix) = prefix else {
        return None;
    };
    match code {
        Code::Isin => isin_next(prefix, c),
        Code::Sedol => sedol_next(prefix, c),
        Code::Cusip => cusip_next(prefix, c),
    }
}
