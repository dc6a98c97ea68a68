//! The grammar of numbers, one character after the other.

ghost use Rattle.std.specs.Prelude.{◌≡◌, IsTrue, ◌↔◌, drop};
ghost use Rattle.helix_json.specs.Numbers.{IsNumber};
ghost use Rattle.helix_json.specs.Inner.NumberSteps.{kind_of, number_step, number_ends, accepts};

use helix_base::Text;

/// What a character is to a number.
#[derive(Clone, Copy, Debug)]
pub enum NumberCharacter {
    Zero,
    Digit,
    Plus,
    Minus,
    Point,
    Mark,
    Other,
}

/// What of a number has been read: nothing, its minus, a leading zero, digits, the point, digits
/// after it, the mark of the exponent, its sign, its digits.
#[derive(Clone, Copy, Debug)]
pub enum NumberState {
    Nothing,
    Minus,
    Zero,
    Whole,
    Point,
    Fraction,
    Mark,
    Sign,
    Exponent,
}

pub fn kind_of_code(code: u32) -> NumberCharacter
    ensures { result ≡ kind_of code }
{
    if code == '0' as u32 {
        NumberCharacter::Zero
    } else if '1' as u32 <= code && code <= '9' as u32 {
        NumberCharacter::Digit
    } else if code == '+' as u32 {
        NumberCharacter::Plus
    } else if code == '-' as u32 {
        NumberCharacter::Minus
    } else if code == '.' as u32 {
        NumberCharacter::Point
    } else if code == 'E' as u32 || code == 'e' as u32 {
        NumberCharacter::Mark
    } else {
        NumberCharacter::Other
    }
}

/// What has been read with one more character, or `None` where no number goes on so.
pub fn next_number_state(state: NumberState, kind: NumberCharacter) -> Option<NumberState>
    ensures { result ≡ number_step state kind }
{
    match (state, kind) {
        (NumberState::Nothing, NumberCharacter::Minus) => Some(NumberState::Minus),
        (NumberState::Nothing | NumberState::Minus, NumberCharacter::Zero) => Some(
            NumberState::Zero,
        ),
        (NumberState::Nothing | NumberState::Minus | NumberState::Whole, NumberCharacter::Digit) =>
            Some(NumberState::Whole),
        (NumberState::Whole, NumberCharacter::Zero) => Some(NumberState::Whole),
        (NumberState::Zero | NumberState::Whole, NumberCharacter::Point) => Some(
            NumberState::Point,
        ),
        (
            NumberState::Point | NumberState::Fraction,
            NumberCharacter::Zero | NumberCharacter::Digit,
        ) => Some(NumberState::Fraction),
        (NumberState::Zero | NumberState::Whole | NumberState::Fraction, NumberCharacter::Mark) =>
            Some(NumberState::Mark),
        (NumberState::Mark, NumberCharacter::Plus | NumberCharacter::Minus) => Some(
            NumberState::Sign,
        ),
        (
            NumberState::Mark | NumberState::Sign | NumberState::Exponent,
            NumberCharacter::Zero | NumberCharacter::Digit,
        ) => Some(NumberState::Exponent),
        _ => None,
    }
}

/// Whether what has been read is a number.
pub fn is_end_of_number(state: NumberState) -> bool
    ensures { result ≡ number_ends state }
{
    match state {
        NumberState::Zero | NumberState::Whole | NumberState::Fraction | NumberState::Exponent =>
            true,
        _ => false,
    }
}

/// Whether the text is a JSON number.
pub fn is_number(text: &Text) -> bool
    ensures { IsTrue result ↔ IsNumber text.now }
{
    accepts_number(text.codes())
}

fn accepts_number(codes: &[u32]) -> bool
    ensures { IsTrue result ↔ IsNumber codes.now }
{
    let mut state = NumberState::Nothing;
    for code in codes {
        let Some(next) = next_number_state(state, kind_of_code(*code)) else {
            return false;
        };
        state = next;
    }
    is_end_of_number(state)
}
