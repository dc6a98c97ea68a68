//! Numbers as they are written, and their exact value.

ghost use Rattle.std.specs.Prelude.{◌≡◌, ◌≢◌, ℕ, ℤ, ◌+◌, ◌*◌, ◌^◌, ◌%◌, ◌≤◌, ◌<◌, ◌++◌, ◌⊎◌, Bool, true, false, take, drop, length, nat_abs, min, IfSome, IfNone, IsTrue, ◌↔◌};
ghost use Rattle.helix_json.specs.Numbers.{IsNumber, IsUnits, digits_value, digits_from, signed};
ghost use Rattle.helix_base.specs.Digits.{AreDigits};
ghost use Rattle.helix_json.specs.Inner.Pieces.{NoDigit, TakesSign, TakesFraction, TakesExponent, IsReduced, Unreachable};

use helix_base::is_digit;

/// The digits at the beginning, and what follows them.
pub fn split_digits(codes: &[u32]) -> (&[u32], &[u32])
    ensures whole { codes.now ≡ result.0.now ++ result.1.now }
    ensures digits { AreDigits result.0.now }
    ensures stops { NoDigit result.1.now }
{
    let end = digits_end(codes);
    codes.split_at(end)
}

/// The number of digits at the beginning.
fn digits_end(codes: &[u32]) -> usize
    ensures within { result ≤ length codes.now }
    ensures digits { AreDigits (take result codes.now) }
    ensures stops { NoDigit (drop result codes.now) }
{
    for (i, code) in codes.iter().enumerate() {
        if !is_digit(*code) {
            return i;
        }
    }
    codes.len()
}

/// Whether the text begins with a minus, and what follows.
pub fn split_sign(codes: &[u32]) -> (bool, &[u32])
    ensures { TakesSign codes.now result.0 result.1.now }
{
    if codes.len() > 0 && codes[0] == '-' as u32 {
        (true, &codes[1..])
    } else {
        (false, codes)
    }
}

/// The digits after a point at the beginning, and what follows.
pub fn split_fraction(codes: &[u32]) -> (&[u32], &[u32])
    ensures { TakesFraction codes.now result.0.now result.1.now }
{
    if codes.len() > 0 && codes[0] == '.' as u32 {
        split_digits(&codes[1..])
    } else {
        codes.split_at(0)
    }
}

/// Whether an exponent divides, and its digits.
pub fn split_exponent(codes: &[u32]) -> (bool, &[u32])
    ensures { TakesExponent codes.now result.0 result.1.now }
{
    if codes.len() < 2 {
        return (false, &codes[codes.len()..]);
    }
    if codes[1] == '-' as u32 {
        (true, &codes[2..])
    } else if codes[1] == '+' as u32 {
        (false, &codes[2..])
    } else {
        (false, &codes[1..])
    }
}
