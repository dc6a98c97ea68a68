//! Moment texts, read.

ghost use Rattle.std.specs.Prelude.{ℕ, ℤ, ◌≡◌, ◌≢◌, ◌^◌, ◌<◌, ◌≤◌, ◌∷◌, ◌↔◌, Bool, List, length, IsTrue, IfSome, IfNone};
ghost use Rattle.helix_ladders.specs.Calendar.{IsDate};
ghost use Rattle.helix_texts.specs.Inner.Reading.{IsClock, BeginsWithNumber, BeginsWithPart, BeginsWithThree, BeginsWithDate, TakesZulu, IsTimeEnd, CountsTimeEnd, IsTimeAfter, CountsTime};
ghost use Rattle.helix_texts.specs.Spelling.{SpellsMoment, Time};
ghost use Rattle.helix_texts.specs.Texts.{last_digits};

use helix_base::{Text, is_digit};
use helix_ladders::{Date, day_number, days_of_month, midnight, power_of_ten};

/// Three numbers with a mark between them.
#[derive(Clone, Copy)]
struct Three {
    first: u32,
    second: u32,
    third: u32,
}

/// The moment that a text spells, in milliseconds from 0001-01-01T00:00:00.000: a date, alone or
/// with a time of day.
pub fn moment_of(text: &Text) -> Option<i64>
    ensures some { IfSome result (SpellsMoment text.now) }
    ensures none { IfNone result ((at : ℤ) → ¬ SpellsMoment text.now at) }
{
    let Some((date, rest)) = split_date(text.codes()) else {
        return None;
    };
    let start = midnight(day_number(date.year, date.month, date.day));
    if rest.is_empty() {
        return Some(start);
    }
    match millis_after(rest) {
        Some(millis) => Some(start + i64::from(millis)),
        None => None,
    }
}

/// The date that codes begin with, and what follows it.
fn split_date(codes: &[u32]) -> Option<(Date, &[u32])>
    ensures some { IfSome result (λ found.
        BeginsWithDate codes.now found.0.year found.0.month found.0.day found.1.now) }
    ensures none { IfNone result ((y m d : ℕ) (rest : List ℕ) → ¬ BeginsWithDate codes.now y m d rest) }
{
    let Some((date, rest)) = split_three(codes, 4, '-' as u32) else {
        return None;
    };
    let (year, month, day) = (date.first, date.second, date.third);
    if !is_date(year, month, day) {
        return None;
    }
    Some((Date { year, month, day }, rest))
}

fn is_date(year: u32, month: u32, day: u32) -> bool
    ensures { IsTrue result ↔ IsDate year month day }
{
    if year < 1 || year > 9999 || month < 1 || month > 12 {
        return false;
    }
    1 <= day && day <= days_of_month(year, month)
}

/// The milliseconds of the day that `T` and a time count.
fn millis_after(codes: &[u32]) -> Option<u32>
    ensures some { IfSome result (CountsTime codes.now) }
    ensures short { IfSome result (λ millis. millis < 86400000) }
    ensures none { IfNone result ((time : Time) → ¬ IsTimeAfter codes.now time) }
{
    let Some(text) = split_mark(codes, 'T' as u32) else {
        return None;
    };
    let Some((clock, rest)) = split_three(text, 2, ':' as u32) else {
        return None;
    };
    if !is_clock(clock) {
        return None;
    }
    match thousandths_of(rest) {
        Some(fraction) => Some(
            ((clock.first * 60 + clock.second) * 60 + clock.third) * 1000 + fraction,
        ),
        None => None,
    }
}

fn is_clock(clock: Three) -> bool
    ensures { IsTrue result ↔ IsClock clock.first clock.second clock.third }
{
    clock.first < 24 && clock.second < 60 && clock.third < 60
}

/// The thousandths of a second at the end of a time: none, or a point and one to three digits, with
/// or without `Z`.
fn thousandths_of(codes: &[u32]) -> Option<u32>
    ensures some { IfSome result (CountsTimeEnd codes.now) }
    ensures short { IfSome result (λ n. n < 1000) }
    ensures none { IfNone result ((fraction : List ℕ) (zulu : Bool) → ¬ IsTimeEnd codes.now fraction zulu) }
{
    let prefix = without_zulu(codes);
    if prefix.is_empty() {
        return Some(0);
    }
    let Some(digits) = split_mark(prefix, '.' as u32) else {
        return None;
    };
    if digits.is_empty() || digits.len() > 3 {
        return None;
    }
    match number_of(digits) {
        Some(number) => Some(number * power_of_ten(3 - digits.len() as u32) as u32),
        None => None,
    }
}

/// The codes without the mark of Coordinated Universal Time, `Z`, at their end.
fn without_zulu(codes: &[u32]) -> &[u32]
    ensures { TakesZulu codes.now result.now }
{
    match codes.split_last() {
        Some((last, prefix)) => { if *last == 'Z' as u32 { prefix } else { codes } }
        None => codes,
    }
}

/// Three numbers that codes begin with, with a mark between them, and what follows.
fn split_three(codes: &[u32], width: usize, mark: u32) -> Option<(Three, &[u32])>
    requires { width ≤ 4 }
    ensures some { IfSome result (λ found. BeginsWithThree codes.now width mark found.0.first found.0.second
        found.0.third found.1.now) }
    ensures none { IfNone result ((a b c : ℕ) (rest : List ℕ) → ¬ BeginsWithThree codes.now width mark a b c rest) }
{
    let Some((first, rest)) = split_part(codes, width, mark) else {
        return None;
    };
    let Some((second, rest)) = split_part(rest, 2, mark) else {
        return None;
    };
    let Some((third, rest)) = split_number(rest, 2) else {
        return None;
    };
    Some((
        Three {
            first,
            second,
            third,
        },
        rest,
    ))
}

/// A number and a mark that codes begin with, and what follows.
fn split_part(codes: &[u32], width: usize, mark: u32) -> Option<(u32, &[u32])>
    requires { width ≤ 4 }
    ensures some { IfSome result (λ found. BeginsWithPart codes.now width mark found.0 found.1.now) }
    ensures none { IfNone result ((n : ℕ) (rest : List ℕ) → ¬ BeginsWithPart codes.now width mark n rest) }
{
    let Some((number, after)) = split_number(codes, width) else {
        return None;
    };
    match split_mark(after, mark) {
        Some(rest) => Some((number, rest)),
        None => None,
    }
}

/// The number that the first digits write, `width` of them, and what follows.
fn split_number(codes: &[u32], width: usize) -> Option<(u32, &[u32])>
    requires { width ≤ 4 }
    ensures some { IfSome result (λ found. BeginsWithNumber codes.now width found.0 found.1.now) }
    ensures none { IfNone result ((n : ℕ) (rest : List ℕ) → ¬ BeginsWithNumber codes.now width n rest) }
{
    if codes.len() < width {
        return None;
    }
    let (digits, rest) = codes.split_at(width);
    match number_of(digits) {
        Some(number) => Some((number, rest)),
        None => None,
    }
}

/// What follows a mark that codes begin with.
fn split_mark(codes: &[u32], mark: u32) -> Option<&[u32]>
    ensures some { IfSome result (λ rest. codes.now ≡ mark ∷ rest.now) }
    ensures none { IfNone result ((rest : List ℕ) → codes.now ≢ mark ∷ rest) }
{
    match codes.split_first() {
        Some((first, rest)) if *first == mark => Some(rest),
        _ => None,
    }
}

/// The number that digits write, leading zeros among them.
fn number_of(digits: &[u32]) -> Option<u32>
    requires { length digits.now ≤ 4 }
    ensures some { IfSome result (λ n. digits.now ≡ last_digits (length digits.now) n) }
    ensures small { IfSome result (λ n. n < 10 ^ length digits.now) }
    ensures none { IfNone result ((n : ℕ) → digits.now ≢ last_digits (length digits.now) n) }
{
    let mut number = 0;
    for code in digits {
        if !is_digit(*code) {
            return None;
        }
        number = number * 10 + (*code - '0' as u32);
    }
    Some(number)
}
