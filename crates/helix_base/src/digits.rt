//! Decimal digits.

ghost use Rattle.std.specs.Prelude.{◌≡◌};
ghost use Rattle.helix_base.specs.Digits.{is_digit};

/// Whether a code is an ASCII digit.
pub fn is_digit(code: u32) -> bool
    ensures { result ≡ is_digit code }
{
    ('0' as u32..='9' as u32).contains(&code)
}
