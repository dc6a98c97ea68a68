//! The check rules of ISIN, SEDOL and CUSIP, and what one character adds to their sums.

ghost use Rattle.std.specs.Prelude.{◌≡◌, ◌↔◌, ◌^◌, ◌<◌, ◌≤◌, IsTrue, false, reverse, map, length, get_or};
ghost use Rattle.std.specs.Prelude.{if◌then◌else◌, ◌*◌};
ghost use Rattle.std.specs.List.{flat_map, list_all};
ghost use Rattle.helix_base.specs.Digits.{is_digit as digit};
ghost use Rattle.helix_base.specs.Weights.{weighted_sum};
ghost use Rattle.helix_values.specs.Codes.{IsValidCode, is_isin as isin, is_sedol as sedol, is_cusip as cusip};
ghost use Rattle.helix_values.specs.Codes.{is_isin_shape as isin_shape, is_sedol_shape as sedol_shape, is_cusip_shape as cusip_shape};
ghost use Rattle.helix_values.specs.Codes.{is_capital as capital, is_vowel as vowel, is_capital_or_digit as capital_or_digit};
ghost use Rattle.helix_values.specs.Codes.{is_sedol_character as sedol_character, is_cusip_character as cusip_character};
ghost use Rattle.helix_values.specs.Codes.{value_of as value, digits_of, digit_sum, doubled_sum, sedol_weights};

use crate::kind::Code;
use helix_base::is_digit;

/// The weights of the characters of a SEDOL.
const SEDOL_WEIGHTS: [u64; 7] = [1, 3, 1, 7, 3, 9, 1];

/// Whether a word is one of a code, with the right check digit.
pub fn valid(code: Code, word: &[u32]) -> bool
    ensures { IsTrue result ↔ IsValidCode code word.now }
{
    match code {
        Code::Isin => is_isin(word),
        Code::Sedol => is_sedol(word),
        Code::Cusip => is_cusip(word),
    }
}

fn is_isin(word: &[u32]) -> bool
    ensures { result ≡ isin word.now }
{
    word.len() == 12 && is_isin_shape(word) && isin_sum(word) % 10 == 0
}

fn is_sedol(word: &[u32]) -> bool
    ensures { result ≡ sedol word.now }
{
    word.len() == 7 && is_sedol_shape(word) && sedol_sum(word) % 10 == 0
}

fn is_cusip(word: &[u32]) -> bool
    ensures { result ≡ cusip word.now }
{
    word.len() == 9 && is_cusip_shape(word) && cusip_sum(word) % 10 == 0
}

fn is_isin_shape(word: &[u32]) -> bool
    requires { length word.now ≡ 12 }
    ensures { result ≡ isin_shape word.now }
{
    are_capitals(&word[..2]) && are_capitals_or_digits(&word[2..]) && are_digits(&word[11..])
}

fn is_sedol_shape(word: &[u32]) -> bool
    requires { length word.now ≡ 7 }
    ensures { result ≡ sedol_shape word.now }
{
    are_sedol_characters(word) && are_digits(&word[6..])
}

fn is_cusip_shape(word: &[u32]) -> bool
    requires { length word.now ≡ 9 }
    ensures { result ≡ cusip_shape word.now }
{
    are_cusip_characters(word) && are_digits(&word[8..])
}

fn are_digits(word: &[u32]) -> bool
    ensures { result ≡ list_all digit word.now }
{
    word.iter().all(|c| is_digit(*c))
}

fn are_capitals(word: &[u32]) -> bool
    ensures { result ≡ list_all capital word.now }
{
    word.iter().all(|c| is_capital(*c))
}

fn are_capitals_or_digits(word: &[u32]) -> bool
    ensures { result ≡ list_all capital_or_digit word.now }
{
    word.iter().all(|c| is_capital(*c) || is_digit(*c))
}

fn are_sedol_characters(word: &[u32]) -> bool
    ensures { result ≡ list_all sedol_character word.now }
{
    word.iter().all(|c| is_sedol_character(*c))
}

fn are_cusip_characters(word: &[u32]) -> bool
    ensures { result ≡ list_all cusip_character word.now }
{
    word.iter().all(|c| is_cusip_character(*c))
}

/// The digits of all characters, counted from the last, each second one doubled, added.
fn isin_sum(word: &[u32]) -> u64
    requires { length word.now ≤ 12 }
    ensures { result ≡ doubled_sum false (reverse (flat_map digits_of word.now)) }
{
    let mut sum = 0;
    let mut twice = false;
    for i in 0..word.len() {
        let c = word[word.len() - 1 - i];
        sum += character_sum(c, twice);
        // A letter has two digits, and so leaves the turn as it is.
        twice = twice != is_digit(c);
    }
    sum
}

/// What the digits of a character of an ISIN add to the sum: counted from the last, the first or the second one is
/// doubled.
pub fn character_sum(c: u32, twice: bool) -> u64
    ensures sum { result ≡ doubled_sum twice (reverse (digits_of c)) }
    ensures small { result < 2 ^ 36 }
{
    let value = value_of(c);
    if is_digit(c) {
        doubled(value, twice)
    } else {
        doubled(value % 10, twice) + doubled(value / 10, !twice)
    }
}

fn sedol_sum(word: &[u32]) -> u64
    requires { length word.now ≡ 7 }
    ensures { result ≡ weighted_sum sedol_weights (map value word.now) }
{
    let mut sum = 0;
    for (i, c) in word.iter().enumerate() {
        sum += weighted(i, *c);
    }
    sum
}

/// What a character of a SEDOL adds to the sum: the weight at an index times the character's value.
pub fn weighted(index: usize, c: u32) -> u64
    requires { index < 7 }
    ensures product { result ≡ get_or sedol_weights index 0 * value c }
    ensures small { result ≤ 2 ^ 36 }
{
    SEDOL_WEIGHTS[index] * value_of(c)
}

/// The values of all characters, each second one doubled, as the sum of their digits.
fn cusip_sum(word: &[u32]) -> u64
    requires { length word.now ≤ 12 }
    ensures { result ≡ doubled_sum false (map value word.now) }
{
    let mut sum = 0;
    let mut twice = false;
    for c in word {
        sum += doubled(value_of(*c), twice);
        twice = !twice;
    }
    sum
}

/// The digits of a number, doubled or not, added: what a character of a CUSIP with this value adds to the sum.
pub fn doubled(n: u64, twice: bool) -> u64
    requires { n < 2 ^ 32 }
    ensures sum { result ≡ digit_sum (if twice then 2 * n else n) }
    ensures small { result < 2 ^ 34 }
{
    let n = if twice { 2 * n } else { n };
    n / 10 + n % 10
}

/// The value of a character: a digit's own, 10 to 35 for the letters, 36 to 38 for the signs of a CUSIP.
pub fn value_of(c: u32) -> u64
    ensures value { result ≡ value c }
    ensures small { result < 2 ^ 32 }
{
    if is_digit(c) {
        u64::from(c - '0' as u32)
    } else if c == '*' as u32 {
        36
    } else if c == '@' as u32 {
        37
    } else if c == '#' as u32 {
        38
    } else {
        u64::from(c.saturating_sub('A' as u32 - 10))
    }
}

/// Whether a character is one from `A` to `Z`.
pub fn is_capital(c: u32) -> bool
    ensures { result ≡ capital c }
{
    ('A' as u32..='Z' as u32).contains(&c)
}

/// Whether a character is a digit or a letter that is no vowel.
pub fn is_sedol_character(c: u32) -> bool
    ensures { result ≡ sedol_character c }
{
    (is_capital(c) || is_digit(c)) && !is_vowel(c)
}

fn is_vowel(c: u32) -> bool
    ensures { result ≡ vowel c }
{
    c == 'A' as u32 || c == 'E' as u32 || c == 'I' as u32 || c == 'O' as u32 || c == 'U' as u32
}

/// Whether a character is a digit, a letter, `*`, `@` or `#`.
pub fn is_cusip_character(c: u32) -> bool
    ensures { result ≡ cusip_character c }
{
    is_capital(c) || is_digit(c) || c == '*' as u32 || c == '@' as u32 || c == '#' as u32
}
