//! The digits of a number, as it is written.

ghost use Rattle.std.specs.Prelude.{◌≡◌, ◌≤◌, ◌^◌, ◌++◌, ℤ, ◌↔◌, length, min, take, drop};
ghost use Rattle.helix_base.specs.Digits.{AreDigits};
ghost use Rattle.helix_json.specs.Numbers.{IsNumber, IsUnits, digits_value};
ghost use Rattle.helix_json.specs.Inner.Pieces.{NoDigit, TakesExponent, TakesFraction, TakesSign};
ghost use Rattle.helix_references.specs.Inner.Wholes.{AreUnitsOf};

use helix_base::is_digit;

/// From this exponent on, no text is long enough for the power of ten.
const HUGE: u128 = 1 << 100;

/// The parts of a number: whether it begins with a minus, the digits before and after the point, whether its exponent
/// divides, and the digits of that.
#[derive(Clone, Copy, Debug)]
pub struct Digits<'a> {
    pub negative: bool,
    pub whole: &'a [u32],
    pub fraction: &'a [u32],
    pub lowers: bool,
    pub exponent: &'a [u32],
}

/// The parts of a number.
pub fn digits_of(codes: &[u32]) -> Digits<'_>
    requires { IsNumber codes.now }
    ensures whole { AreDigits result.whole.now }
    ensures fraction { AreDigits result.fraction.now }
    ensures exponent { AreDigits result.exponent.now }
    ensures units { (units : ℤ) → IsUnits codes.now units
        ↔ AreUnitsOf result.negative result.whole.now result.fraction.now result.lowers result.exponent.now units }
{
    let (negative, unsigned) = split_sign(codes);
    let (whole, later) = split_digits(unsigned);
    let (fraction, last) = split_fraction(later);
    let (lowers, exponent) = split_exponent(last);
    Digits {
        negative,
        whole,
        fraction,
        lowers,
        exponent,
    }
}

/// The number that digits write, or 2^100 from there on.
#[tactic(auto, using(helix_json::specs::Inner::DecimalLaws::digit_steps))]
pub fn value_up_to_huge(digits: &[u32]) -> u128
    requires { AreDigits digits.now }
    ensures { result ≡ min (digits_value digits.now) (2 ^ 100) }
{
    let mut value: u128 = 0;
    for digit in digits {
        value = (value * 10 + (*digit - '0' as u32) as u128).min(HUGE);
    }
    value
}

/// The digits at the beginning, and what follows them.
fn split_digits(codes: &[u32]) -> (&[u32], &[u32])
    ensures whole { codes.now ≡ result.0.now ++ result.1.now }
    ensures digits { AreDigits result.0.now }
    ensures stops { NoDigit result.1.now }
{
    let end = digits_end(codes);
    codes.split_at(end)
}

/// The number of digits at the beginning.
fn digits_end(codes: &[u32]) -> usize
    ensures within { result ≤ length codes.now }
    ensures digits { AreDigits (take result codes.now) }
    ensures stops { NoDigit (drop result codes.now) }
{
    for (i, code) in codes.iter().enumerate() {
        if !is_digit(*code) {
            return i;
        }
    }
    codes.len()
}

/// Whether the text begins with a minus, and what follows.
fn split_sign(codes: &[u32]) -> (bool, &[u32])
    ensures { TakesSign codes.now result.0 result.1.now }
{
    if codes.len() > 0 && codes[0] == '-' as u32 {
        (true, &codes[1..])
    } else {
        (false, codes)
    }
}

/// The digits after a point at the beginning, and what follows.
fn split_fraction(codes: &[u32]) -> (&[u32], &[u32])
    ensures { TakesFraction codes.now result.0.now result.1.now }
{
    if codes.len() > 0 && codes[0] == '.' as u32 {
        split_digits(&codes[1..])
    } else {
        codes.split_at(0)
    }
}

/// Whether an exponent divides, and its digits.
fn split_exponent(codes: &[u32]) -> (bool, &[u32])
    ensures { TakesExponent codes.now result.0 result.1.now }
{
    if codes.len() < 2 {
        return (false, &codes[codes.len()..]);
    }
    if codes[1] == '-' as u32 {
        (true, &codes[2..])
    } else if codes[1] == '+' as u32 {
        (false, &codes[2..])
    } else {
        (false, &codes[1..])
    }
}
