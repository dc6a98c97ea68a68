//! The ladder of numbers.

ghost use Rattle.std.specs.Prelude.{◌≡◌, ◌<◌, ◌≤◌, ◌/◌, ◌%◌, ◌^◌};

use crate::multiples::{multiple_above, multiple_below};
use crate::scale::Scale;

/// One, in units of 10^-15.
pub const ONE: u64 = 1_000_000_000_000_000;

/// The greatest number, 10^20, in units of 10^-15.
pub const GREATEST: i128 = 100_000_000_000_000_000_000_000_000_000_000_000;

/// The power of two in 10^15.
const TWO_TO_15: u128 = 32_768;

/// The power of five in 10^15.
const FIVE_TO_15: u64 = 30_517_578_125;

/// The powers of ten, from 1 to 10^15.
const POWERS: [u64; 16] = [
    1,
    10,
    100,
    1_000,
    10_000,
    100_000,
    1_000_000,
    10_000_000,
    100_000_000,
    1_000_000_000,
    10_000_000_000,
    100_000_000_000,
    1_000_000_000_000,
    10_000_000_000_000,
    100_000_000_000_000,
    ONE,
];

/// The powers of five, from 1 to 5^15.
const FIVES: [u64; 16] = [
    1,
    5,
    25,
    125,
    625,
    3_125,
    15_625,
    78_125,
    390_625,
    1_953_125,
    9_765_625,
    48_828_125,
    244_140_625,
    1_220_703_125,
    6_103_515_625,
    30_517_578_125,
];

/// The numbers from -10^20 to 10^20 in units of 10^-15, with sixteen grids: the multiples of
/// 10^-15, of 10^-14 and so on up to those of 1.
#[derive(Clone, Copy, Debug)]
pub struct Decades;

impl Scale for Decades {
    ghost use Rattle.helix_ladders.specs.Ladders.{numbers_ladder};
    ghost use Rattle.helix_ladders.specs.LadderLaws.{numbers_are_a_ladder};

    ghost ladder = { λ s. numbers_ladder };

    #[inline(always)]
    fn low(&self) -> i128 {
        -GREATEST
    }

    #[inline(always)]
    fn high(&self) -> i128 {
        GREATEST
    }

    #[inline(always)]
    fn levels(&self) -> u32 {
        16
    }

    #[inline(always)]
    fn on(&self, level: u32, value: i128) -> bool {
        remainder_of_ten(value.unsigned_abs(), level) == 0
    }

    #[inline(always)]
    fn step(&self, level: u32) -> u64 {
        power_of_ten(level)
    }

    #[inline(always)]
    fn is_regular(&self, _level: u32) -> bool {
        true
    }

    #[inline(always)]
    fn ceil(&self, level: u32, bound: i128) -> Option<i128> {
        if bound > GREATEST {
            return None;
        }
        // The ends of the range are on every grid.
        let from = bound.max(-GREATEST);
        let past = remainder_of_ten(from.unsigned_abs(), level);
        Some(multiple_above(power_of_ten(level), past, from))
    }

    #[inline(always)]
    fn floor(&self, level: u32, bound: i128) -> Option<i128> {
        if bound < -GREATEST {
            return None;
        }
        let to = bound.min(GREATEST);
        let past = remainder_of_ten(to.unsigned_abs(), level);
        Some(multiple_below(power_of_ten(level), past, to))
    }

    ghost laws = { λ s. numbers_are_a_ladder };
}

/// A power of ten: the step of a grid of numbers, in units of 10^-15.
#[inline(always)]
pub fn power_of_ten(level: u32) -> u64
    requires { level < 16 }
    ensures value { result ≡ 10 ^ level }
    ensures positive { 0 < result }
{
    POWERS[level as usize]
}

/// A power of five.
#[inline(always)]
fn power_of_five(level: u32) -> u64
    requires { level < 16 }
    ensures value { result ≡ 5 ^ level }
    ensures positive { 0 < result }
    ensures small { result ≤ 5 ^ 15 }
{
    FIVES[level as usize]
}

/// A power of two.
#[inline(always)]
fn power_of_two(level: u32) -> u128
    requires { level < 16 }
    ensures value { result ≡ 2 ^ level }
    ensures positive { 0 < result }
    ensures small { result ≤ 2 ^ 15 }
{
    1 << level
}

/// The remainder of a division by a power of ten. Of a number beyond 64 bits the power of two is
/// divided first, by a shift: what that leaves mostly fits them.
#[inline(always)]
fn remainder_of_ten(number: u128, level: u32) -> u64
    requires { level < 16 }
    ensures { result ≡ number % 10 ^ level }
{
    if let Ok(small) = u64::try_from(number) {
        return small % power_of_ten(level);
    }
    let two = power_of_two(level);
    match u64::try_from(number / two) {
        Ok(high) => high % power_of_five(level) * two as u64 + (number % two) as u64,
        Err(_) => (number % u128::from(power_of_ten(level))) as u64,
    }
}

/// The whole part of a size in units of 10^-15, and what is left. Of a size beyond 64 bits the power of
/// two in 10^15 is divided first, by a shift.
pub fn split_units(size: u128) -> (u128, u64)
    ensures whole { result.0 ≡ size / 10 ^ 15 }
    ensures fraction { result.1 ≡ size % 10 ^ 15 }
{
    if let Ok(small) = u64::try_from(size) {
        return (u128::from(small / ONE), small % ONE);
    }
    match u64::try_from(size / TWO_TO_15) {
        Ok(high) => (
            u128::from(high / FIVE_TO_15),
            high % FIVE_TO_15 * TWO_TO_15 as u64 + (size % TWO_TO_15) as u64,
        ),
        Err(_) => (size / u128::from(ONE), (size % u128::from(ONE)) as u64),
    }
}
