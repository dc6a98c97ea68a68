//! The exact value of a number, in units of 10^-15.

ghost use Rattle.std.specs.Prelude.{◌≡◌, ◌≢◌, ℕ, ℤ, ◌+◌, ◌-◌, ◌*◌, ◌%◌, ◌^◌, ◌≤◌, ◌<◌, ◌++◌, length, min, nat_abs, IfSome, IfNone};
ghost use Rattle.helix_json.specs.Numbers.{IsNumber, IsUnits, digits_value, digits_from, signed};
ghost use Rattle.helix_base.specs.Digits.{AreDigits};
ghost use Rattle.helix_json.specs.Inner.Pieces.{IsReduced, Unreachable, AreUnits};

use crate::number::{split_digits, split_exponent, split_fraction, split_sign};
use helix_base::Text;

/// The greatest number of units that a value may have.
const MAX_UNITS: u128 = 100_000_000_000_000_000_000_000_000_000_000_000;

/// From this exponent on only zero has units in range.
const HUGE: u128 = 1 << 100;

/// A number without the zeros at its end, and how many those were.
#[derive(Clone, Copy)]
struct Reduced {
    number: u128,
    zeros: u128,
}

/// The value of digits, or `HUGE` from there on.
#[tactic(auto, using(crate::specs::Inner::DecimalLaws::digit_steps))]
fn value_up_to_huge(digits: &[u32]) -> u128
    requires { AreDigits digits.now }
    ensures { result ≡ min (digits_value digits.now) (2 ^ 100) }
{
    let mut value: u128 = 0;
    for digit in digits {
        value = (value * 10 + (*digit - '0' as u32) as u128).min(HUGE);
    }
    value
}

/// A number times a power of ten, or `None` where that is above `MAX_UNITS`.
fn scaled(number: u128, power: u128) -> Option<u128>
    requires some { 0 < number }
    requires bound { number ≤ 10 ^ 35 }
    ensures within { IfSome result (λ product. (product ≡ number * 10 ^ power) × (product ≤ 10 ^ 35)) }
    ensures above { IfNone result (10 ^ 35 < number * 10 ^ power) }
{
    let mut product = number;
    let mut done: u128 = 0;
    while done < power {
        product *= 10;
        done += 1;
        if product > MAX_UNITS {
            return None;
        }
    }
    Some(product)
}

/// One more digit after a reduced number, or `None` where no number up to `MAX_UNITS` is left.
fn push_digit(reduced: Reduced, digit: u32) -> Option<Reduced>
    requires digit { (48 ≤ digit) × (digit ≤ 57) }
    requires bound { reduced.number ≤ 10 ^ 35 }
    requires room { reduced.zeros + 1 < 2 ^ 128 }
    ensures some { IfSome result (λ next. (next.number ≤ 10 ^ 35) × (next.zeros ≤ reduced.zeros + 1)
        × ((value : ℕ) → IsReduced value reduced.number reduced.zeros
        → IsReduced (value * 10 + (digit - 48)) next.number next.zeros)) }
    ensures none { IfNone result ((value : ℕ) → IsReduced value reduced.number reduced.zeros
        → Unreachable (10 ^ 35) (value * 10 + (digit - 48))) }
{
    if digit == '0' as u32 {
        let zeros = if reduced.number == 0 {
            0
        } else {
            reduced.zeros + 1
        };
        return Some(Reduced {
            number: reduced.number,
            zeros,
        });
    }
    let added = (digit - '0' as u32) as u128;
    if reduced.number == 0 {
        return Some(Reduced {
            number: added,
            zeros: 0,
        });
    }
    let Some(shifted) = scaled(reduced.number, reduced.zeros + 1) else {
        return None;
    };
    if shifted + added > MAX_UNITS {
        return None;
    }
    Some(Reduced {
        number: shifted + added,
        zeros: 0,
    })
}

/// More digits after a reduced number, or `None` where no number up to `MAX_UNITS` is left.
#[tactic(auto, using(crate::specs::Inner::DecimalLaws::digit_steps))]
fn push_digits(start: Reduced, digits: &[u32]) -> Option<Reduced>
    requires digits { AreDigits digits.now }
    requires bound { start.number ≤ 10 ^ 35 }
    requires room { start.zeros < 2 ^ 64 }
    ensures some { IfSome result (λ next. (next.number ≤ 10 ^ 35) × (next.zeros ≤ start.zeros + length digits.now)
        × ((value : ℕ) → IsReduced value start.number start.zeros
        → IsReduced (digits_from value digits.now) next.number next.zeros)) }
    ensures none { IfNone result ((value : ℕ) → IsReduced value start.number start.zeros
        → Unreachable (10 ^ 35) (digits_from value digits.now)) }
{
    let mut reduced = start;
    for digit in digits {
        let Some(next) = push_digit(reduced, *digit) else {
            return None;
        };
        reduced = next;
    }
    Some(reduced)
}

/// The digits of a number without the zeros at their end, or `None` where no number up to `MAX_UNITS` is left.
fn reduced_digits(whole: &[u32], fraction: &[u32]) -> Option<Reduced>
    requires whole { AreDigits whole.now }
    requires fraction { AreDigits fraction.now }
    ensures some { IfSome result (λ all. (all.number ≤ 10 ^ 35) × (all.zeros < 2 ^ 66)
        × IsReduced (digits_value (whole.now ++ fraction.now)) all.number all.zeros) }
    ensures none { IfNone result (Unreachable (10 ^ 35) (digits_value (whole.now ++ fraction.now))) }
{
    let Some(shifted) = push_digits(
        Reduced {
            number: 0,
            zeros: 0,
        },
        whole,
    ) else {
        return None;
    };
    push_digits(shifted, fraction)
}

/// A number that does not end in zero, times a power of ten and divided by one. `None` where that
/// is no whole number up to `MAX_UNITS`.
fn placed(number: u128, up: u128, down: u128) -> Option<u128>
    requires some { number % 10 ≢ 0 }
    requires bound { number ≤ 10 ^ 35 }
    ensures some { IfSome result (λ n. (n ≤ 10 ^ 35) × (number * 10 ^ up ≡ n * 10 ^ down)) }
    ensures none { IfNone result ((n : ℕ) → n ≤ 10 ^ 35 → number * 10 ^ up ≢ n * 10 ^ down) }
{
    if up < down {
        return None;
    }
    scaled(number, up - down)
}

/// The number of units, without the sign, of a number with these digits.
fn magnitude(whole: &[u32], fraction: &[u32], lowers: bool, exponent: &[u32]) -> Option<u128>
    requires whole { AreDigits whole.now }
    requires fraction { AreDigits fraction.now }
    requires exponent { AreDigits exponent.now }
    ensures some { IfSome result (λ n. (n ≤ 10 ^ 35)
        × AreUnits (digits_value (whole.now ++ fraction.now)) (length fraction.now) lowers (digits_value exponent.now)
        n) }
    ensures none { IfNone result ((n : ℕ) → n ≤ 10 ^ 35
        → ¬ AreUnits (digits_value (whole.now ++ fraction.now)) (length fraction.now) lowers (digits_value exponent.now)
        n) }
{
    let Some(all) = reduced_digits(whole, fraction) else {
        return None;
    };
    if all.number == 0 {
        return Some(0);
    }
    let power = value_up_to_huge(exponent);
    if power == HUGE {
        return None;
    }
    let places = fraction.len() as u128;
    if lowers {
        placed(all.number, all.zeros + 15, places + power)
    } else {
        placed(all.number, all.zeros + (15 + power), places)
    }
}

/// The number with its sign.
fn with_sign(negative: bool, units: u128) -> i128
    requires { units ≤ 10 ^ 35 }
    ensures value { result ≡ signed negative units }
    ensures size { nat_abs result ≡ units }
{
    if negative {
        -(units as i128)
    } else {
        units as i128
    }
}

/// The exact value in units of 10^-15, where it is a whole number of them from -10^35 to 10^35.
pub fn number_units(text: &Text) -> Option<i128>
    requires { IsNumber text.now }
    ensures some { IfSome result (λ units. IsUnits text.now units × (nat_abs units ≤ 10 ^ 35)) }
    ensures none { IfNone result ((units : ℤ) → nat_abs units ≤ 10 ^ 35 → ¬ IsUnits text.now units) }
{
    let (negative, unsigned) = split_sign(text.codes());
    let (whole, later) = split_digits(unsigned);
    let (fraction, last) = split_fraction(later);
    let (lowers, exponent) = split_exponent(last);
    let Some(units) = magnitude(whole, fraction, lowers, exponent) else {
        return None;
    };
    Some(with_sign(negative, units))
}
