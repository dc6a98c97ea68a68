//! Lines that are made in an array, without memory.

ghost use Rattle.std.specs.Prelude.{◌≡◌, ◌≤◌, ◌++◌, ℕ, length, codes, decimal, List};
ghost use Rattle.helix_command.specs.Options.{word_of};

use arrayvec::ArrayString;
use helix_command::OptionName;
use itoa::Buffer;

/// A line of a fixed text.
pub fn fixed_line(text: &str) -> ArrayString<64>
    requires { length text.now ≤ 64 }
    ensures { result.bytes ≡ text.now }
{
    let mut line = ArrayString::new();
    line.push_str(text);
    line
}

/// A text, a number and a text.
pub fn number_line(before: &str, number: u64, after: &str) -> ArrayString<64>
    requires before { length before.now ≤ 20 }
    requires after { length after.now ≤ 20 }
    ensures { result.bytes ≡ before.now ++ (decimal number ++ after.now) }
{
    let mut digits = Buffer::new();
    let mut line = fixed_line(before);
    line.push_str(digits.format(number));
    line.push_str(after);
    line
}

/// The line of a faulty option.
pub fn option_line(option: OptionName) -> ArrayString<64>
    ensures { result.bytes ≡ codes "usage: option " ++ word_of option }
{
    let mut line = fixed_line("usage: option ");
    line.push_str(option.word());
    line
}
