//! Whole numbers, of any size.

ghost use Rattle.std.specs.Prelude.{◌≡◌, ℕ, ◌+◌, ◌*◌, ◌^◌, ◌-◌, ◌≤◌, ◌<◌, ◌↔◌, IsTrue, length, nat_abs, Bool};
ghost use Rattle.helix_base.specs.Digits.{AreDigits};
ghost use Rattle.helix_json.specs.Numbers.{digits_from, signed};
ghost use Rattle.helix_json.specs.declared.value.Json.{Number};
ghost use Rattle.helix_references.specs.Inner.Wholes.{AreWhole, EndsIn, SaysWhole};

use crate::digits::{digits_of, value_up_to_huge};
use helix_base::Text;
use helix_json::{Json, is_number, number_units};

/// The units of one.
const ONE: u128 = 1_000_000_000_000_000;

/// What whole number a value is.
#[derive(Clone, Copy, Debug)]
pub enum Whole {
    /// No number, or one with a fraction.
    Not,
    /// This one, from -10^20 to 10^20.
    Within(i128),
    /// One beyond.
    Beyond,
}

/// Whether digits have another than zero among them, and how many zeros are at their end.
#[derive(Clone, Copy, Debug)]
struct Ending {
    some: bool,
    zeros: u128,
}

/// What whole number a value is.
pub fn whole_in(value: &Json) -> Whole
    ensures { SaysWhole value.now result }
{
    match value {
        Json::Number(text) => whole_of(text),
        _ => Whole::Not,
    }
}

fn whole_of(text: &Text) -> Whole
    ensures { SaysWhole (Number text.now) result }
{
    if !is_number(text) {
        return Whole::Not;
    }
    let digits = digits_of(text.codes());
    if !is_whole(
        digits.whole,
        digits.fraction,
        digits.lowers,
        digits.exponent,
    ) {
        return Whole::Not;
    }
    match number_units(text) {
        Some(units) => Whole::Within(with_sign(digits.negative, units.unsigned_abs() / ONE)),
        None => Whole::Beyond,
    }
}

/// The number with its sign.
fn with_sign(negative: bool, count: u128) -> i128
    requires { count ≤ 10 ^ 35 }
    ensures { result ≡ signed negative count }
{
    if negative {
        -(count as i128)
    } else {
        count as i128
    }
}

/// Whether the parts of a number are a whole number.
fn is_whole(whole: &[u32], fraction: &[u32], lowers: bool, exponent: &[u32]) -> bool
    requires whole { AreDigits whole.now }
    requires fraction { AreDigits fraction.now }
    requires exponent { AreDigits exponent.now }
    ensures { IsTrue result ↔ AreWhole whole.now fraction.now lowers exponent.now }
{
    let start = Ending {
        some: false,
        zeros: 0,
    };
    let ending = push_digits(push_digits(start, whole), fraction);
    if !ending.some {
        return true;
    }
    let power = value_up_to_huge(exponent);
    let places = fraction.len() as u128;
    if lowers {
        places + power <= ending.zeros
    } else {
        places <= ending.zeros + power
    }
}

/// How digits end, after those that have ended so.
#[tactic(auto, using(helix_json::specs::Inner::DecimalLaws::digit_steps))]
fn push_digits(start: Ending, digits: &[u32]) -> Ending
    requires digits { AreDigits digits.now }
    requires room { start.zeros < 2 ^ 65 }
    ensures zeros { result.zeros ≤ start.zeros + length digits.now }
    ensures ends { (value : ℕ) → EndsIn value start.some start.zeros
        → EndsIn (digits_from value digits.now) result.some result.zeros }
{
    let mut ending = start;
    for digit in digits {
        ending = push_digit(ending, *digit);
    }
    ending
}

fn push_digit(ending: Ending, digit: u32) -> Ending
    requires digit { (48 ≤ digit) × (digit ≤ 57) }
    requires room { ending.zeros + 1 < 2 ^ 128 }
    ensures zeros { result.zeros ≤ ending.zeros + 1 }
    ensures ends { (value : ℕ) → EndsIn value ending.some ending.zeros
        → EndsIn (value * 10 + (digit - 48)) result.some result.zeros }
{
    if digit == '0' as u32 {
        Ending {
            some: ending.some,
            zeros: ending.zeros + 1,
        }
    } else {
        Ending {
            some: true,
            zeros: 0,
        }
    }
}
