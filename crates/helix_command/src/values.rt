//! What values the options take.

ghost use Rattle.std.specs.Prelude.{◌≡◌, ◌≤◌};
ghost use Rattle.std.specs.List.{list_all};
ghost use Rattle.helix_base.specs.Digits.{is_digit};
ghost use Rattle.helix_command.specs.Values.{alphabet_named, format_named, greatest_number, is_number, is_numeral, is_value, number_within};

use crate::options::OptionName;
use crate::word::is_word;
use helix_base::{Alphabet, is_digit};
use helix_output::Format;

/// The greatest number that an option takes.
const GREATEST_NUMBER: u64 = 1_000_000_000_000;

/// Whether a text is a value of an option. A name may not be empty.
#[tactic(auto, unfolding(crate::specs::Values::is_value))]
pub fn is_value(option: OptionName, text: &[u32]) -> bool
    ensures { result ≡ is_value option text.now }
{
    match option {
        OptionName::OutputFormat => format_named(text).is_some(),
        OptionName::MaxRows => number_named(text).is_some(),
        OptionName::Violate => number_named(text).is_some(),
        OptionName::Workload => number_named(text).is_some(),
        OptionName::Characters => alphabet_named(text).is_some(),
        _ => option.takes_value() && !text.is_empty(),
    }
}

/// The format with a name.
#[tactic(auto, unfolding(crate::specs::Values::format_named))]
pub fn format_named(text: &[u32]) -> Option<Format>
    ensures { result ≡ format_named text.now }
{
    if is_word(text, "csv") {
        Some(Format::Csv)
    } else if is_word(text, "json") {
        Some(Format::Json)
    } else {
        None
    }
}

/// The alphabet with a name.
#[tactic(auto, unfolding(crate::specs::Values::alphabet_named))]
pub fn alphabet_named(text: &[u32]) -> Option<Alphabet>
    ensures { result ≡ alphabet_named text.now }
{
    if is_word(text, "basic") {
        Some(Alphabet::Basic)
    } else if is_word(text, "latin") {
        Some(Alphabet::Latin)
    } else if is_word(text, "unicode") {
        Some(Alphabet::Unicode)
    } else {
        None
    }
}

/// The number that a numeral spells, where an option takes it.
pub fn number_named(text: &[u32]) -> Option<u64>
    ensures { result ≡ number_within greatest_number text.now }
{
    number_within(GREATEST_NUMBER, text)
}

/// The number that a numeral spells, where it is at most this one.
#[tactic(auto, using(crate::proofs::Numerals::number_steps), unfolding(crate::specs::Values::number_within))]
pub fn number_within(most: u64, text: &[u32]) -> Option<u64>
    requires { most ≤ 1000000000000 }
    ensures { result ≡ number_within most text.now }
{
    if !is_numeral(text) {
        return None;
    }
    let mut value = 0;
    for code in text {
        value = value * 10 + u64::from(*code - '0' as u32);
        if value > most {
            return None;
        }
    }
    Some(value)
}

/// Whether a text is decimal digits, the first of which isn't 0.
fn is_numeral(text: &[u32]) -> bool
    ensures { result ≡ is_numeral text.now }
{
    if text.is_empty() {
        return false;
    }
    if text[0] == '0' as u32 {
        return false;
    }
    are_digits(text)
}

fn are_digits(text: &[u32]) -> bool
    ensures { result ≡ list_all is_digit text.now }
{
    text.iter().all(|code| is_digit(*code))
}
