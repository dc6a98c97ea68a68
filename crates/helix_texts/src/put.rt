//! Texts of numbers and moments, put into a buffer. Each function answers where the text ends.

ghost use Rattle.std.specs.Prelude.{◌≡◌, ◌≢◌, ◌+◌, ◌*◌, ◌/◌, ◌%◌, ◌^◌, ◌<◌, ◌≤◌, [], ◌∷◌, ◌++◌, take, length, decimal, unsigned_abs};
ghost use Rattle.helix_json.specs.Numbers.{minus_text, fraction_text};
ghost use Rattle.helix_ladders.specs.Calendar.{days_of_calendar};
ghost use Rattle.helix_texts.specs.Texts.{last_digits, without_zeros, units_text, day_text, time_text};

use crate::digits::{put, put_all, put_digits, put_four, put_three, put_two};
use helix_ladders::{date_of, split_units};
use itoa::Buffer;

/// Puts a numeral without leading zeros.
fn put_numeral(out: &mut [u8], at: usize, number: u128) -> usize
    requires { at + length (decimal number) ≤ length out.old }
    ensures end { result ≡ at + length (decimal number) }
    ensures text { take result out.new ≡ take at out.old ++ decimal number }
{
    let mut buffer = Buffer::new();
    match u64::try_from(number) {
        Ok(small) => put_all(out, at, buffer.format(small).as_bytes()),
        Err(_) => put_all(out, at, buffer.format(number).as_bytes()),
    }
}

/// Puts a minus where a number is negative.
fn put_sign(out: &mut [u8], at: usize, negative: bool) -> usize
    requires { at < length out.old }
    ensures end { result ≤ at + 1 }
    ensures text { take result out.new ≡ take at out.old ++ minus_text negative }
{
    if negative { put(out, at, b'-') } else { at }
}

/// Puts the point and the places of a fraction in units of 10^-15, and nothing where it is 0.
fn put_fraction(out: &mut [u8], at: usize, fraction: u64) -> usize
    requires room { at + 16 ≤ length out.old }
    requires fraction { fraction < 10 ^ 15 }
    ensures end { result ≤ at + 16 }
    ensures text { take result out.new ≡ take at out.old ++ fraction_text (without_zeros (last_digits 15 fraction)) }
{
    if fraction == 0 {
        return at;
    }
    let (places, digits) = without_end_zeros(fraction);
    let point = put(out, at, b'.');
    put_digits(out, point, places, digits)
}

/// How many places a fraction in units of 10^-15 has without the zeros at their end, and the number
/// that these places write. It takes off eight zeros, four, two and one where there are as many.
fn without_end_zeros(fraction: u64) -> (usize, u64)
    requires some { 0 < fraction }
    requires fraction { fraction < 10 ^ 15 }
    ensures some { 0 < result.0 }
    ensures most { result.0 ≤ 15 }
    ensures text { last_digits result.0 result.1 ≡ without_zeros (last_digits 15 fraction) }
{
    let (places, digits) = shorter(15, fraction, 8, 100_000_000);
    let (places, digits) = shorter(places, digits, 4, 10_000);
    let (places, digits) = shorter(places, digits, 2, 100);
    shorter(places, digits, 1, 10)
}

/// Digits without this many zeros at their end, where they have them.
#[inline(always)]
fn shorter(places: usize, digits: u64, zeros: usize, power: u64) -> (usize, u64)
    requires power { power ≡ 10 ^ zeros }
    requires some { 0 < digits }
    requires below { digits < 10 ^ places }
    requires fewer { digits % (power * power) ≢ 0 }
    ensures some { 0 < result.1 }
    ensures below { result.1 < 10 ^ result.0 }
    ensures most { result.0 ≤ places }
    ensures fewer { result.1 % power ≢ 0 }
    ensures text { without_zeros (last_digits result.0 result.1) ≡ without_zeros (last_digits places digits) }
{
    if digits % power == 0 {
        (places - zeros, digits / power)
    } else {
        (places, digits)
    }
}

/// Puts a number in units of 10^-15.
pub fn put_number(out: &mut [u8], units: i128) -> usize
    requires room { 38 ≤ length out.old }
    requires number { unsigned_abs units ≤ 10 ^ 35 }
    ensures end { result ≤ 38 }
    ensures text { take result out.new ≡ units_text units }
{
    let (whole, fraction) = split_ones(units.unsigned_abs());
    let sign = put_sign(out, 0, units < 0);
    let point = put_numeral(out, sign, whole);
    put_fraction(out, point, fraction)
}

/// The whole part of a number in units of 10^-15, and what is left.
fn split_ones(size: u128) -> (u128, u64)
    requires { size ≤ 10 ^ 35 }
    ensures whole { result.0 ≡ size / 10 ^ 15 }
    ensures fraction { result.1 ≡ size % 10 ^ 15 }
    ensures short { length (decimal result.0) ≤ 21 }
    ensures below { result.1 < 10 ^ 15 }
{
    split_units(size)
}

/// Puts the date of a day.
pub fn put_day(out: &mut [u8], day: u32) -> usize
    requires room { 10 ≤ length out.old }
    requires day { day < days_of_calendar }
    ensures end { result ≡ 10 }
    ensures text { take result out.new ≡ day_text day }
{
    let date = date_of(day);
    let year = put_four(out, 0, date.year);
    let year = put(out, year, b'-');
    let month = put_two(out, year, date.month);
    let month = put(out, month, b'-');
    put_two(out, month, date.day)
}

/// Puts the time of a millisecond of a day.
pub fn put_time(out: &mut [u8], at: usize, millis: u32) -> usize
    requires room { at + 12 ≤ length out.old }
    requires millis { millis < 86400000 }
    ensures end { result ≡ at + 12 }
    ensures text { take result out.new ≡ take at out.old ++ time_text millis }
{
    let hour = put_two(out, at, millis / 3_600_000);
    let hour = put(out, hour, b':');
    let minute = put_two(out, hour, millis / 60_000 % 60);
    let minute = put(out, minute, b':');
    let second = put_two(out, minute, millis / 1_000 % 60);
    let second = put(out, second, b'.');
    put_three(out, second, millis % 1_000)
}
