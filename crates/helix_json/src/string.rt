//! The grammar of strings, one character after the other.

ghost use Rattle.std.specs.Prelude.{◌≡◌, ◌≤◌, ◌<◌, Some, None};
ghost use Rattle.std.specs.Char.{digit_value};
ghost use Rattle.helix_json.specs.Text.{IsHigh, escaped};
ghost use Rattle.helix_json.specs.Inner.StringSteps.{Fine, LowFine, plain_step, backslash_step, string_step, unit_step, low_step};

/// What of a character has been read: nothing, the backslash, `\u` and digits of the first unit, a
/// high surrogate, the backslash after it, `\u` and digits of the second unit.
#[derive(Clone, Copy, Debug)]
pub enum StringState {
    Plain,
    Backslash,
    Unit { digits: u32, value: u32 },
    High { high: u32 },
    HighBackslash { high: u32 },
    Low { high: u32, digits: u32, value: u32 },
}

/// What one more character does.
#[derive(Clone, Copy, Debug)]
pub enum StringMove {
    /// No string goes on so.
    Refuse,
    Go(StringState),
    /// A character of the string is read.
    Give(u32),
    /// The string ends.
    Close,
}

/// The value of a hexadecimal digit, or 16 and more of another character.
fn hex_value(code: u32) -> u32
    ensures { result ≡ digit_value code }
{
    if code < '0' as u32 {
        36
    } else if code <= '9' as u32 {
        code - '0' as u32
    } else if code < 'A' as u32 {
        36
    } else if code <= 'Z' as u32 {
        code - 'A' as u32 + 10
    } else if code < 'a' as u32 {
        36
    } else if code <= 'z' as u32 {
        code - 'a' as u32 + 10
    } else {
        36
    }
}

/// The character that a letter after a backslash means.
fn escape(letter: u32) -> Option<u32>
    ensures { result ≡ escaped letter }
{
    if letter == '"' as u32 {
        Some('"' as u32)
    } else if letter == '\\' as u32 {
        Some('\\' as u32)
    } else if letter == '/' as u32 {
        Some('/' as u32)
    } else if letter == 'b' as u32 {
        Some('\u{8}' as u32)
    } else if letter == 'f' as u32 {
        Some('\u{c}' as u32)
    } else if letter == 'n' as u32 {
        Some('\n' as u32)
    } else if letter == 'r' as u32 {
        Some('\r' as u32)
    } else if letter == 't' as u32 {
        Some('\t' as u32)
    } else {
        None
    }
}

/// A character where one of the string, its end or a backslash may come.
fn plain_move(code: u32) -> StringMove
    ensures { result ≡ plain_step code }
{
    if code == '"' as u32 {
        StringMove::Close
    } else if code == '\\' as u32 {
        StringMove::Go(StringState::Backslash)
    } else if code < ' ' as u32 {
        StringMove::Refuse
    } else {
        StringMove::Give(code)
    }
}

/// A character after a backslash.
fn backslash_move(code: u32) -> StringMove
    ensures { result ≡ backslash_step code }
{
    if code == 'u' as u32 {
        return StringMove::Go(StringState::Unit {
            digits: 0,
            value: 0,
        });
    }
    match escape(code) {
        Some(escaped) => StringMove::Give(escaped),
        None => StringMove::Refuse,
    }
}

/// One more digit of a unit that is no second one of a pair.
fn unit_move(digits: u32, value: u32, digit: u32) -> StringMove
    requires few { digits ≤ 3 }
    requires small { value < 4096 }
    ensures { result ≡ unit_step digits value digit }
{
    if 16 <= digit {
        return StringMove::Refuse;
    }
    if digits == 1 && value == 13 && 12 <= digit {
        return StringMove::Refuse;
    }
    let more = value * 16 + digit;
    if digits < 3 {
        StringMove::Go(StringState::Unit {
            digits: digits + 1,
            value: more,
        })
    } else if 0xD800 <= more && more < 0xDC00 {
        StringMove::Go(StringState::High { high: more })
    } else {
        StringMove::Give(more)
    }
}

/// One more digit of the second unit of a pair.
fn low_move(high: u32, digits: u32, value: u32, digit: u32) -> StringMove
    requires is_high { IsHigh high }
    requires fine { LowFine digits value }
    ensures { result ≡ low_step high digits value digit }
{
    if 16 <= digit {
        return StringMove::Refuse;
    }
    if digits == 0 && digit != 13 || digits == 1 && digit < 12 {
        return StringMove::Refuse;
    }
    let more = value * 16 + digit;
    if digits < 3 {
        StringMove::Go(StringState::Low {
            high,
            digits: digits + 1,
            value: more,
        })
    } else {
        StringMove::Give(0x10000 + (high - 0xD800) * 0x400 + (more - 0xDC00))
    }
}

/// What one more character does to a string.
pub fn string_move(state: StringState, code: u32) -> StringMove
    requires { Fine state }
    ensures { result ≡ string_step state code }
{
    match state {
        StringState::Plain => plain_move(code),
        StringState::Backslash => backslash_move(code),
        StringState::Unit { digits, value } => unit_move(digits, value, hex_value(code)),
        StringState::High { high } => {
            if code == '\\' as u32 {
                StringMove::Go(StringState::HighBackslash { high })
            } else {
                StringMove::Refuse
            }
        }
        StringState::HighBackslash { high } => {
            if code == 'u' as u32 {
                StringMove::Go(StringState::Low {
                    high,
                    digits: 0,
                    value: 0,
                })
            } else {
                StringMove::Refuse
            }
        }
        StringState::Low {
            high,
            digits,
            value,
        } => low_move(high, digits, value, hex_value(code)),
    }
}
